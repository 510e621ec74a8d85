//! Series of placed modules.

ghost use Rattle.std.specs.Prelude.{◌≡◌, ◌<◌, ◌++◌, ◌∷◌, Bool, List, true, [], ◌⊎◌, length, OnOk, OnErr, IfOk, IfErr, Err};
ghost use Rattle.cfi_aux.specs.declared.placed.Placed.{Placed as PlacedModule};
ghost use Rattle.cfi_graph.specs.Cell.{cells_of};
ghost use Rattle.cfi_graph.specs.Reading.{HaveGraph};
ghost use Rattle.cfi_policy.specs.Image.{HaveImage};
ghost use Rattle.cfi_modules.specs.declared.fault.JoinFault.TheVariants.{Memory};
ghost use Rattle.cfi_modules.specs.Image.{IsImageOfSeries, IsOrderedImage};
ghost use Rattle.cfi_modules.specs.Loaded.{AreAmong, AreLoaded, HaveClosedImages};
ghost use Rattle.cfi_modules.specs.Series.{with_module, without_last, with_retired, live_in, EndsLive, HasLive, JoinsTo, IsRefusedBy, HasJoined, CanBeTaken, CanRejoin, IsSeries};

use crate::fault::JoinFault;
use crate::index::{Index, index_of, with_last};
use crate::joining::join;
use crate::laws::{
    live_have_images, loaded_have_closed_images, loaded_have_image, series_are_loaded,
    series_have_cells, series_have_graph,
};
use crate::room::room_after;
use cfi_aux::{Module, Placed, copied_placed};
use cfi_graph::cells;
use cfi_policy::image_of;
use cfi_retire::live_list;
use cfi_unit::Fill;
use cfi_word::{Image, Layout};
use std::alloc::{AllocError, Global};
use std::marker::Model;

/// Modules that were placed one after the other, each at the next free place with the exports of the live ones before
/// it, and verified against these.
#[derive(Drop)]
pub struct Series {
    code_words: u32,
    placed: Vec<Placed>,
    // Whether each of them is live.
    flags: Vec<bool>,
    // The live ones, once one was retired; before that all are.
    live: Option<Vec<Placed>>,
    // Where the names are that the live ones export; none before the first joins, after memory ran out for it, and after
    // a retirement.
    index: Option<Index>,
    alloc: Global,
}

// Clauses see the number of code words, the placed modules, and which of them are live.
impl Model for Series {
    ghost use Rattle.cfi_modules.specs.Series.{Series, IsKept};

    ghost Value = { Series };

    ghost view = { λ a. record {
      code_words = a.code_words;
      placed = a.placed.items;
      flags = a.flags.items;
    } };

    ghost invariant = { IsKept };
}

// Adds a copy of a module to the live ones, where these are kept.
fn add_copy(
    alloc: Global,
    live: &mut Option<Vec<Placed>>,
    placed: &Placed,
) -> Result<(), AllocError>
    ensures ok { OnOk result ((placed_modules : List PlacedModule) (flags : List Bool) →
        length flags ≡ length placed_modules → HasLive placed_modules flags live.old →
        HasLive (placed_modules ++ placed.now ∷ []) (flags ++ true ∷ []) live.new) }
    ensures same { OnErr result ((placed_modules : List PlacedModule) (flags : List Bool) →
        HasLive placed_modules flags live.old → HasLive placed_modules flags live.new) }
{
    if let Some(live) = live {
        live.push(copied_placed(alloc, placed)?)?;
    }
    Ok(())
}

// Takes the last one from the live ones, where these are kept.
fn drop_last(live: &mut Option<Vec<Placed>>)
    ensures { (placed : List PlacedModule) (flags : List Bool) (last : PlacedModule) →
        length flags ≡ length placed → HasLive (placed ++ last ∷ []) (flags ++ true ∷ []) live.old →
        HasLive placed flags live.new }
{
    if let Some(live) = live {
        let _ = live.pop();
    }
}

impl Series {
    /// No modules, in the code words of the layout.
    pub fn new(alloc: Global, layout: &Layout) -> Series
        ensures { result ≡ record { code_words = layout.now; placed = []; flags = [] } }
    {
        Series {
            code_words: layout.code_words(),
            placed: Vec::new(alloc),
            flags: Vec::new(alloc),
            live: None,
            index: None,
            alloc,
        }
    }

    /// Adds a module behind those that are there.
    ///
    /// `Place` where it does not fit at the next free place, and then `Verify` where, placed there, a fault stands
    /// against it beside the live ones. A refusal leaves the series as it was.
    pub fn add(&mut self, unplaced: &Module) -> Result<(), JoinFault>
        requires { CanBeTaken unplaced.now }
        ensures ok { OnOk result (HasJoined self.old self.new unplaced.now) }
        ensures fault { IfErr result (IsRefusedBy self.old unplaced.now) }
        ensures same { OnErr result (self.new ≡ self.old) }
        ensures only { (placed : PlacedModule) → JoinsTo self.old unplaced.now placed →
            (self.new ≡ with_module self.old placed) ⊎ (result ≡ Err Memory) }
    {
        let placed = self.place_next(unplaced)?;
        self.rejoin(placed)?;
        Ok(())
    }

    /// Adds what placing made of a module behind those that are there. It is not placed or verified again.
    ///
    /// Without memory the series stays as it was.
    pub fn rejoin(&mut self, placed: Placed) -> Result<(), AllocError>
        requires { CanRejoin self.old placed }
        ensures ok { OnOk result (self.new ≡ with_module self.old placed) }
        ensures same { OnErr result (self.new ≡ self.old) }
    {
        self.placed.reserve(1)?;
        self.flags.reserve(1)?;
        add_copy(self.alloc, &mut self.live, &placed)?;
        self.placed.push_reserved(placed);
        self.flags.push_reserved(true);
        self.index = with_last(self.index.take(), self.live_ones());
        Ok(())
    }

    /// Whether a module joins behind those that are there; the series stays as it was.
    ///
    /// No image is made. It is refused as by `add`, which takes it where this answers `Ok`, if there is memory.
    pub fn joins(&mut self, unplaced: &Module) -> Result<(), JoinFault>
        requires { CanBeTaken unplaced.now }
        ensures ok { OnOk result ((placed : PlacedModule) × JoinsTo self.old unplaced.now placed) }
        ensures fault { IfErr result (IsRefusedBy self.old unplaced.now) }
        ensures same { self.new ≡ self.old }
        ensures only { (placed : PlacedModule) → JoinsTo self.old unplaced.now placed →
            IfErr result (λ fault. fault ≡ Memory) }
    {
        let _ = self.place_next(unplaced)?;
        Ok(())
    }

    // What placing makes of a module behind those that are there; it verifies against the live ones.
    fn place_next(&mut self, unplaced: &Module) -> Result<Placed, JoinFault>
        requires { CanBeTaken unplaced.now }
        ensures joins { IfOk result (JoinsTo self.old unplaced.now) }
        ensures fault { IfErr result (IsRefusedBy self.old unplaced.now) }
        ensures same { self.new ≡ self.old }
        ensures only { (placed : PlacedModule) → JoinsTo self.old unplaced.now placed →
            IfErr result (λ fault. fault ≡ Memory) }
    {
        let index = index_of(self.alloc, self.index.take(), self.live_ones())?;
        let room = room_after(self.code_words, &self.placed);
        let joined = join(self.alloc, &room, self.live_ones(), &index, unplaced);
        self.index = Some(index);
        joined
    }

    /// The image of all modules, under the policy of all, in the series' layout, with its classes in the order of their
    /// least slots.
    pub fn image(&self) -> Result<Image, AllocError>
        ensures image { IfOk result (IsImageOfSeries self.now) }
        ensures ordered { IfOk result (IsOrderedImage self.now.placed) }
    {
        image_of(self.alloc, self.modules(), &self.layout())
    }

    /// The cells of late imports of all modules, with what their names mean among the live ones.
    pub fn cells(&self) -> Result<Vec<Fill>, AllocError>
        ensures { IfOk result (λ cells.
            cells.items ≡ cells_of (live_in self.now) self.now.placed) }
    {
        series_have_cells();
        cells(self.alloc, self.live_ones(), self.modules())
    }

    /// The layout that the modules stand in.
    pub fn layout(&self) -> Layout
        ensures { result ≡ self.now.code_words }
    {
        Layout::new(self.code_words).unwrap()
    }

    // Without the module that was added last, and that.
    pub(crate) fn without_last(mut self) -> (Series, Placed)
        requires { EndsLive self }
        ensures rest { result.0 ≡ without_last self }
        ensures placed { with_module result.0 result.1 ≡ self }
    {
        self.index = None;
        drop_last(&mut self.live);
        let _ = self.flags.pop();
        let placed = self.placed.pop().unwrap();
        (self, placed)
    }

    /// The live modules without the one at a place.
    ///
    /// Places count the modules from 0. They are copies, in memory of their own.
    pub fn others(&self, place: usize) -> Result<Vec<Placed>, AllocError>
        requires { place < length self.now.placed }
        ensures { IfOk result (λ live. live.items ≡ live_in (with_retired self.now place)) }
    {
        let mut flags = Vec::from_slice(self.alloc, &self.flags)?;
        flags[place] = false;
        live_list(self.alloc, &self.placed, &flags)
    }

    /// Retires the module at a place, where the others that are live are these. It takes no memory.
    ///
    /// It keeps its place, and no module that joins later finds its names or may jump into it.
    pub fn retire(&mut self, place: usize, others: Vec<Placed>)
        requires within { place < length self.old.placed }
        requires others { others.items ≡ live_in (with_retired self.old place) }
        ensures { self.new ≡ with_retired self.old place }
    {
        self.flags[place] = false;
        self.live = Some(others);
        self.index = None;
    }

    /// Whether each module is live.
    pub fn flags(&self) -> &[bool]
        ensures value { result.now ≡ self.now.flags }
        ensures many { length result.now ≡ length self.now.placed }
    {
        &self.flags
    }

    // The live modules, in their order.
    fn live_ones(&self) -> &[Placed]
        ensures value { result.now ≡ live_in self.now }
        ensures series { IsSeries self.now.code_words self.now.placed }
    {
        match &self.live {
            Some(live) => live,
            None => &self.placed,
        }
    }

    /// The live modules, in their order. They have a graph and an image.
    pub fn live(&self) -> &[Placed]
        ensures value { result.now ≡ live_in self.now }
        ensures among { AreAmong (live_in self.now) self.now.placed }
        ensures image { HaveImage (live_in self.now) self.now.code_words }
    {
        series_have_graph();
        series_are_loaded();
        live_have_images();
        self.live_ones()
    }

    /// The placed modules, in their order. They have a graph and an image, and each image of them is closed.
    pub fn modules(&self) -> &[Placed]
        ensures value { result.now ≡ self.now.placed }
        ensures series { IsSeries self.now.code_words self.now.placed }
        ensures graph { HaveGraph self.now.placed }
        ensures loaded { AreLoaded self.now.code_words self.now.placed }
        ensures image { HaveImage self.now.placed self.now.code_words }
        ensures closed { HaveClosedImages self.now.code_words self.now.placed }
    {
        series_have_graph();
        series_are_loaded();
        loaded_have_image();
        loaded_have_closed_images();
        &self.placed
    }
}
