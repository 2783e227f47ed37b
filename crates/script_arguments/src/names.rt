// The words that commands begin with, and those of the kernels.
ghost use Rattle.std.specs.Prelude.{◌≡◌};
ghost use Rattle.script_arguments.specs.Names.{found_in, call_table, other_table, name_of, kernel_of};

use kernels::choice::KernelChoice;

// The name of a call.
#[derive(Clone, Copy)]
pub enum CallName {
    Lay,
    Lease,
    Settle,
    Surrender,
    Recall,
    Preview,
    Read,
    Clear,
}

// The name of a command.
#[derive(Clone, Copy)]
pub enum Name {
    Plate,
    Open,
    Call(CallName),
    Sheet,
    Save,
}

// The call that a word names, if it names one.
#[tactic(auto, using(std::proofs::lemmas::Bool::Decides::nat_tests, crate::proofs::Spelling::bytes_are_read))]
fn call_name_of(word: &[u8]) -> Option<CallName>
    ensures is_the_name_if_it_is_one { result ≡ found_in call_table word.now }
{
    match word {
        b"lay" => Some(CallName::Lay),
        b"lease" => Some(CallName::Lease),
        b"settle" => Some(CallName::Settle),
        b"surrender" => Some(CallName::Surrender),
        b"recall" => Some(CallName::Recall),
        b"preview" => Some(CallName::Preview),
        b"read" => Some(CallName::Read),
        b"clear" => Some(CallName::Clear),
        _ => None,
    }
}

// The other command that a word names, if it names one.
#[tactic(auto, using(std::proofs::lemmas::Bool::Decides::nat_tests, crate::proofs::Spelling::bytes_are_read))]
fn other_name_of(word: &[u8]) -> Option<Name>
    ensures is_the_name_if_it_is_one { result ≡ found_in other_table word.now }
{
    match word {
        b"plate" => Some(Name::Plate),
        b"open" => Some(Name::Open),
        b"sheet" => Some(Name::Sheet),
        b"save" => Some(Name::Save),
        _ => None,
    }
}

// The name that a word is, if it is one.
pub fn name_of(word: &[u8]) -> Option<Name>
    ensures is_the_name_if_it_is_one { result ≡ name_of word.now }
{
    call_name_of(word)
        .map(Name::Call)
        .or_else(|| other_name_of(word))
}

// The kernel that a word names, if it names one.
pub fn kernel_of(word: &[u8]) -> Option<KernelChoice>
    ensures is_the_kernel_if_it_is_one { result ≡ kernel_of word.now }
{
    match word {
        b"5/3" => Some(KernelChoice::FiveThree),
        b"S" => Some(KernelChoice::STransform),
        _ => None,
    }
}
