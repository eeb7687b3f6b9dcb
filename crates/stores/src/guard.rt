// What a directive took of the working store is given back on every way out of it.
ghost use Rattle.std.specs.Prelude.{◌≡◌};
ghost use Rattle.stores.specs.Tank.{tank, cut};
ghost use Rattle.stores.specs.Marks.{marked};

use crate::meter::Meter;

// How many tokens were stored.
#[derive(Clone, Copy)]
pub struct Mark {
    pub working: usize,
    pub building: usize,
}

impl Meter {
    pub fn mark(&self) -> Mark
        ensures { result ≡ marked (tank self.now) }
    {
        Mark {
            working: self.working.len(),
            building: self.building.len(),
        }
    }
}

// A loan of the meter that cuts it back to the mark when it ends.
pub struct Guard<'a> {
    pub meter: &'a mut Meter,
    pub mark: Mark,
}

impl Drop for Guard<'_> {
    fn drop(self)
        ensures { tank self.exit.0.now ≡ cut (tank self.entry.meter.now) self.entry.mark.working self.entry.mark.building }
    {
        let mark = self.mark;
        self.meter.truncate(mark);
        let Guard { meter: _, mark: _ } = self;
    }
}
