// Tries the library's transform, its inverse, its cones and its edits against a plain transform and the cone's rule, on many plates, and
// prints how many plates and cells were compared and how many differed.
#![tactic(auto)]

mod compare;
mod noise;
mod plain;
mod rule;

use compare::{Check, Shape, Tally};
use kernels::choice::KernelChoice;
use noise::Noise;
use planes::level::Level;
use std::alloc::AllocError;

impl Check {
    // Every number of levels, with both kernels.
    fn compare_levels(&mut self, height: usize, width: usize) -> Result<(), AllocError> {
        for number in 0..6 {
            let level = Level { number };
            for kernel in [KernelChoice::FiveThree, KernelChoice::STransform] {
                self.compare_plate(Shape {
                    height,
                    width,
                    level,
                    kernel,
                })?;
            }
        }
        Ok(())
    }

    // Every width up to 9 at one height.
    fn compare_widths(&mut self, height: usize) -> Result<(), AllocError> {
        for width in 1..10 {
            self.compare_levels(height, width)?;
        }
        Ok(())
    }

    // Every size up to 9 by 9.
    fn compare_small(&mut self) -> Result<(), AllocError> {
        for height in 1..10 {
            self.compare_widths(height)?;
        }
        Ok(())
    }

    // Some larger sizes.
    fn compare_large(&mut self) -> Result<(), AllocError> {
        for (height, width) in [
            (1, 100),
            (100, 1),
            (17, 33),
            (31, 16),
            (32, 32),
            (33, 65),
            (64, 47),
        ] {
            self.compare_levels(height, width)?;
        }
        Ok(())
    }
}

fn run(rt: &HostRuntime) -> anyhow::Result<()> {
    let mut check = Check {
        heap: rt.alloc(),
        tally: Tally::default(),
        noise: Noise::new(20261117),
    };
    check.compare_small()?;
    check.compare_large()?;
    println!(rt;
        "{} plates, {} cells compared, {} differences",
        check.tally.plates, check.tally.cells, check.tally.differences
    )?;
    Ok(())
}

fn main(rt: HostRuntime) -> anyhow::Result<()> {
    run(&rt)
}
