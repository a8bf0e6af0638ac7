// Level vectors (document 01: level lists), eight levels: their sum, their order, the next (in place and by value) and the one before (in place).
#![tactic(auto)]

ghost use Rattle.std.specs.Prelude.{ℕ, suc, ◌≡◌, ◌^◌, ◌≤◌, ◌<◌, length};
ghost use Rattle.naturals.specs.Sum.{sum_to};
ghost use Rattle.std.specs.declared.cmp.Ordering.TheVariants.{Equal};
ghost use Rattle.numbering.specs.Point.{at};
ghost use Rattle.numbering.specs.Count.{vectors};
ghost use Rattle.numbering.specs.Number.{rank, first_of};
ghost use Rattle.numbering.specs.Order.{order_of_levels};
ghost use Rattle.vectors.specs.Steps.{VectorIn, NextVector, PreviousVector};

use std::cmp::Ordering;

// The sum of these levels.
pub fn level_sum(levels: &[u32]) -> u32
    requires { sum_to (at levels.now) (length levels.now) < 2 ^ 32 }
    ensures { result ≡ sum_to (at levels.now) (length levels.now) }
{
    levels.iter().sum()
}

// ---- their order

// The sum of eight levels. (In 64 bits, where `level_sum` counts in 32: any eight numbers may be compared.)
fn total(levels: [u32; 8]) -> u64
    ensures { result ≡ sum_to (at levels) 8 }
{
    levels.iter().map(|l| u64::from(*l)).sum()
}

// Two level vectors in document 01's order: the smaller level sum first, then the smaller level on the last axis at which they differ.
// (`then_with` and the `cmp` of the levels' iterators were proved, and took half as long again, and twice as long where the sums are equal.)
pub fn compare_levels(a: [u32; 8], b: [u32; 8]) -> Ordering
    ensures { result ≡ order_of_levels 8 (at a) (at b) Equal }
{
    match total(a).cmp(&total(b)) {
        Ordering::Equal => {}
        unequal => return unequal,
    }
    for t in (0..8).rev() {
        match a[t].cmp(&b[t]) {
            Ordering::Equal => {}
            unequal => return unequal,
        }
    }
    Ordering::Equal
}

// ---- a level vector with its sum

// A level vector of these axes, those past them zero, with its sum. (Stepped in place: a copy of the levels right after a write to one would wait for it.)
// No bound of the sum is in the type, since past the last of sum 8 `next` gives sum 9.
#[derive(Clone, Copy)]
pub struct LevelVector {
    pub axes: u32,
    pub sum: u32,
    pub levels: [u32; 8],
    ghost some: { 1 ≤ axes },
    ghost few: { axes ≤ 8 },
    ghost vector: { VectorIn axes sum levels },
}

impl LevelVector {
    // The first of these axes: the one of sum 0.
    pub fn first(axes: u32) -> LevelVector
        requires { (1 ≤ axes) × (axes ≤ 8) }
        ensures { (result.axes ≡ axes) × (result.sum ≡ 0) }
    {
        LevelVector {
            axes,
            sum: 0,
            levels: [0; 8],
        }
    }

    // The last of these axes and this sum: all of it on the last axis.
    pub fn last(axes: u32, sum: u32) -> LevelVector
        requires { (1 ≤ axes) × (axes ≤ 8) }
        ensures { (result.axes ≡ axes) × (result.sum ≡ sum) × (suc (rank (at result.levels) axes) ≡ vectors axes sum) }
    {
        let mut levels = [0u32; 8];
        levels[axes as usize - 1] = sum;
        LevelVector { axes, sum, levels }
    }

    // The one of these levels.
    #[tactic(auto, using(crate::proofs::Summing::sum_of_first))]
    pub fn of(axes: u32, levels: [u32; 8]) -> LevelVector
        requires { (1 ≤ axes) × (axes ≤ 8) × (sum_to (at levels) axes ≤ 8) × ((t : ℕ) → axes ≤ t → at levels t ≡ 0) }
        ensures { (result.axes ≡ axes) × (result.levels ≡ levels) }
    {
        LevelVector {
            axes,
            sum: level_sum(&levels[..axes as usize]),
            levels,
        }
    }

    // The next. Of the same sum: of the first level v above 0 that has an axis after it one moves there, the rest to axis 1. Past the last of a sum, which has
    // it all on the last axis: the first of the next sum, which has it all on axis 1.
    pub fn next(&mut self)
        requires { self.old.sum ≤ 8 }
        ensures { (self.new.axes ≡ self.old.axes) × NextVector self.old.axes self.old.sum self.old.levels self.new.sum self.new.levels }
    {
        let last = self.axes as usize - 1;
        if let Some(k) = self.levels[..last].iter().position(|l| 0 < *l) {
            let v = self.levels[k];
            self.levels[k] = 0;
            self.levels[0] = v - 1;
            self.levels[k + 1] += 1;
        } else {
            self.sum += 1;
            self.levels = [self.sum, 0, 0, 0, 0, 0, 0, 0];
        }
    }

    // The one before: of the same sum or, before the first of a sum, the last of the sum below. (Not one function with `next`: what moves, where it is looked
    // for and where it goes differ.)
    pub fn previous(&mut self)
        requires { (self.old.sum ≤ 8) × (0 < first_of self.old.axes (at self.old.levels)) }
        ensures { (self.new.axes ≡ self.old.axes) × PreviousVector self.old.axes self.old.sum self.old.levels self.new.sum self.new.levels }
    {
        let axes = self.axes as usize;
        if let Some(k) = self.levels[1..axes].iter().position(|l| 0 < *l) {
            let v = self.levels[0];
            self.levels[0] = 0;
            self.levels[k + 1] -= 1;
            self.levels[k] = v + 1;
        } else {
            self.sum -= 1;
            self.levels = [0; 8];
            self.levels[axes - 1] = self.sum;
        }
    }
}

// The next level vector by value.
pub fn next_vector(axes: usize, sum: u32, levels: [u32; 8]) -> LevelVector
    requires { (1 ≤ axes) × (axes ≤ 8) × (sum ≤ 8) × VectorIn axes sum levels }
    ensures { NextVector axes sum levels result.sum result.levels }
{
    let mut vector = LevelVector {
        axes: axes as u32,
        sum,
        levels,
    };
    vector.next();
    vector
}
