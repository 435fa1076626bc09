// Sample folds.
use grain_tasks::Fold;
use outside_io::{List, NoMemory};
use std::alloc::Global;

/// The sum of some numbers. It stays at the greatest number once it reaches it.
#[derive(Drop)]
pub struct Sum {
    pub numbers: List<u64>,
}

impl Fold for Sum {
    ghost use Rattle.test_grains.specs.Samples.{summing, summing_lawful};

    type V = u64;

    ghost folding = { summing };

    fn count(&self) -> u64 {
        self.numbers.len() as u64
    }

    fn unit(&self, _alloc: Global) -> Result<u64, NoMemory> {
        Ok(0)
    }

    fn at(&self, _alloc: Global, index: u64) -> Result<u64, NoMemory> {
        Ok(self.numbers.as_slice()[index as usize])
    }

    fn join(&self, _alloc: Global, left: u64, right: &u64) -> Result<u64, NoMemory> {
        Ok(left.saturating_add(*right))
    }

    ghost lawful = { summing_lawful };
}

/// A transform: each number twice over.
#[derive(Drop)]
pub struct Doubles {
    pub numbers: List<u32>,
}

impl Fold for Doubles {
    ghost use Rattle.test_grains.specs.Samples.{doubling, doubling_lawful};

    type V = List<u64>;

    ghost folding = { doubling };

    fn count(&self) -> u64 {
        self.numbers.len() as u64
    }

    fn unit(&self, alloc: Global) -> Result<List<u64>, NoMemory> {
        Ok(List::new(alloc))
    }

    fn at(&self, alloc: Global, index: u64) -> Result<List<u64>, NoMemory> {
        let number = self.numbers.as_slice()[index as usize];
        List::from_slice(alloc, &[number as u64 * 2])
    }

    fn join(
        &self,
        _alloc: Global,
        mut left: List<u64>,
        right: &List<u64>,
    ) -> Result<List<u64>, NoMemory> {
        left.add_all(right.as_slice())?;
        Ok(left)
    }

    ghost lawful = { doubling_lawful };
}

/// A for-each: it puts down the index that it visits.
#[derive(Drop)]
pub struct Visits {
    pub count: u64,
}

impl Fold for Visits {
    ghost use Rattle.test_grains.specs.Samples.{visiting, visiting_lawful};

    type V = List<u64>;

    ghost folding = { visiting };

    fn count(&self) -> u64 {
        self.count
    }

    fn unit(&self, alloc: Global) -> Result<List<u64>, NoMemory> {
        Ok(List::new(alloc))
    }

    fn at(&self, alloc: Global, index: u64) -> Result<List<u64>, NoMemory> {
        List::from_slice(alloc, &[index])
    }

    fn join(
        &self,
        _alloc: Global,
        mut left: List<u64>,
        right: &List<u64>,
    ) -> Result<List<u64>, NoMemory> {
        left.add_all(right.as_slice())?;
        Ok(left)
    }

    ghost lawful = { visiting_lawful };
}
