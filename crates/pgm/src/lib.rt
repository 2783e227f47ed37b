// Reading greymaps in Netpbm's PGM format with the magic P5.
#![tactic(auto)]

mod header;
mod raster;
pub mod read;
