//! A load in two steps.

ghost use Rattle.std.specs.Prelude.{◌≡◌, IfOk, IfErr};
ghost use Rattle.cfi_aux.specs.declared.placed.Placed.{Placed as PlacedModule};
ghost use Rattle.cfi_modules.specs.declared.fault.JoinFault.TheVariants.{Memory};
ghost use Rattle.cfi_modules.specs.Series.{Series as SeriesValue, with_module, without_last, JoinsTo, IsRefusedBy, HasJoined, CanBeTaken};

use crate::fault::JoinFault;
use crate::series::Series;
use cfi_aux::{Module, Placed};
use std::marker::Model;

/// A series with one module more, which may still be taken back.
#[derive(Drop)]
pub struct Prepared {
    series: Series,
}

// Clauses see the series.
impl Model for Prepared {
    ghost use Rattle.cfi_modules.specs.Series.{Series, EndsLive};

    ghost Value = { Series };

    ghost view = { λ a. a.series };

    ghost invariant = { λ a. EndsLive a.series };
}

/// A series that did not take a module, as it was, and why.
#[derive(Drop)]
pub struct Refused {
    /// The series.
    pub series: Series,
    /// Why it did not take the module.
    pub fault: JoinFault,
}

impl Series {
    /// Places and verifies a module behind those that are there: the first step of a load.
    ///
    /// Refused as by `add`. All memory that the series takes for the load is taken here.
    pub fn prepare(mut self, unplaced: &Module) -> Result<Prepared, Refused>
        requires { CanBeTaken unplaced.now }
        ensures ok { IfOk result (λ prepared. HasJoined self prepared unplaced.now) }
        ensures fault { IfErr result (λ refused.
            IsRefusedBy self unplaced.now refused.fault) }
        ensures same { IfErr result (λ refused. refused.series ≡ self) }
        ensures only { (placed : PlacedModule) → JoinsTo self unplaced.now placed →
            IfErr result (λ refused. refused.fault ≡ Memory) }
    {
        match self.add(unplaced) {
            Ok(()) => Ok(Prepared { series: self }),
            Err(fault) => Err(Refused {
                series: self,
                fault,
            }),
        }
    }
}

impl Prepared {
    /// The series with the module, which stands last.
    pub fn series(&self) -> &Series
        ensures { result.now ≡ self.now }
    {
        &self.series
    }

    /// The second step of a load: the series has the module. It takes no memory.
    pub fn commit(self) -> Series
        ensures { result ≡ self }
    {
        self.series
    }

    /// The series without the module: a load that is not made. It takes no memory.
    pub fn discard(self) -> Series
        ensures { result ≡ without_last self }
    {
        let (series, _) = self.series.without_last();
        series
    }

    /// The series without the module, and what placing made of it: a load that is made later, by `rejoin`. It takes no
    /// memory.
    pub fn withdraw(self) -> (Series, Placed)
        ensures { (series : SeriesValue) (placed : PlacedModule) →
            self ≡ with_module series placed →
            result ≡ (series, placed) }
    {
        self.series.without_last()
    }
}
