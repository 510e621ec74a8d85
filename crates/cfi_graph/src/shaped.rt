//! What a graph takes for granted of modules.

ghost use Rattle.std.specs.Prelude.{Bool, List};
ghost use Rattle.cfi_aux.specs.declared.placed.Placed.{Placed};
ghost use Rattle.cfi_graph.specs.Live.{live_of};
ghost use Rattle.cfi_graph.specs.Reading.{HaveGraph};
ghost use Rattle.cfi_graph.specs.Shaped.{AreApart, AreShaped};

/// Shaped modules, each of which follows the one before, are apart.
pub fn shaped_are_apart()
    ensures { (ms : List Placed) → AreShaped ms → AreApart ms }
{}

/// The live ones of modules that are apart are apart, and of those of which a graph can be made one can be made.
pub fn live_are_apart()
    ensures apart { (ms : List Placed) (live : List Bool) → AreApart ms →
        AreApart (live_of ms live) }
    ensures graph { (ms : List Placed) (live : List Bool) → HaveGraph ms →
        HaveGraph (live_of ms live) }
{}
