// A tune in memory of its own.
ghost use Rattle.std.specs.Prelude.{◌≡◌, IfOk};
ghost use Rattle.tune_store.specs.declared.tune.Tune.{Tune};

use crate::tune::Tune;
use std::alloc::{AllocError, Global};
use std::marker::Model;

// A tune in memory of its own, so that a list moves one address, and not the tune. A clause sees
// the tune.
#[derive(Drop)]
pub(crate) struct BoxedTune {
    tune: Box<Tune>,
}

impl Model for BoxedTune {
    ghost use Rattle.tune_store.specs.declared.tune.Tune.{Tune};

    ghost Value = { Tune };

    ghost view = { λ boxed. boxed.tune.value };
}

impl BoxedTune {
    // Moves a tune into memory of its own. The error is out of memory.
    pub(crate) fn new(alloc: Global, tune: Tune) -> Result<BoxedTune, AllocError>
        ensures { IfOk result (λ boxed. boxed ≡ tune) }
    {
        Ok(BoxedTune {
            tune: Box::new(alloc, tune)?,
        })
    }

    // The tune.
    pub(crate) fn tune(&self) -> &Tune
        ensures { result.now ≡ self.now }
    {
        &self.tune
    }

    // Gives the tune another number, where it stands.
    pub(crate) fn renumber(&mut self, number: u32)
        ensures { self.new ≡ record self.old { number = number } }
    {
        self.tune.number = number;
    }
}
