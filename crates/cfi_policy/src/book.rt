//! Images of modules to which modules are added: classes keep their numbers.

ghost use Rattle.std.specs.Prelude.{◌≡◌, ◌+◌, ◌≤◌, ◌++◌, List, ◌∷◌, [], length, IfOk};
ghost use Rattle.cfi_aux.specs.declared.placed.Placed.{Placed as PlacedModule};
ghost use Rattle.cfi_class.specs.Labels.{AreLabels, AreOrderedBySlot};
ghost use Rattle.cfi_graph.specs.Direct.{DirectEdge};
ghost use Rattle.cfi_graph.specs.KeptGraph.{IsLonger};
ghost use Rattle.cfi_policy.specs.Book.{labels_of, StandsFor, KeepsNumbers, PutsWords};
ghost use Rattle.cfi_policy.specs.Code.{IsCodeOf, LieApart};
ghost use Rattle.cfi_policy.specs.Image.{HaveImage};

use crate::code::put;
use cfi_aux::Placed;
use cfi_class::Kept;
use cfi_graph::KeptGraph;
use cfi_values::Numbers;
use cfi_word::{Edge, Image, Labels, Layout};
use std::alloc::{AllocError, Global};
use std::marker::Model;

/// The image of modules, which stands while modules are added: a class keeps its number.
#[derive(Drop)]
pub struct Book {
    layout: Layout,
    graph: KeptGraph,
    kept: Kept,
    image: Image,
}

// Clauses see the links and the image.
impl Model for Book {
    ghost use Rattle.cfi_policy.specs.Book.{KeptImage};
    ghost use Rattle.cfi_policy.specs.inner.Kept.{IsKept};

    ghost Value = { KeptImage };

    ghost view = { λ book. record { graph = book.graph; image = book.image } };

    ghost invariant = { λ book. IsKept book.layout book.kept book.image };
}

// The edges behind those of before.
fn behind<'a>(before: &[Edge], edges: &'a [Edge]) -> &'a [Edge]
    requires { IsLonger before.now edges.now }
    ensures { edges.now ≡ before.now ++ result.now }
{
    &edges[before.len()..]
}

// A copy of the code, with the words of the module at its place.
fn with_words(alloc: Global, code: &[u32], placed: &Placed) -> Result<Numbers, AllocError>
    requires { placed.now.base + length placed.now.words ≤ length code.now }
    ensures { IfOk result (PutsWords placed.now code.now) }
{
    let mut code = Vec::from_slice(alloc, code)?;
    let place = placed.base as usize;
    put(code.as_mut_slice(), place, placed.words.as_slice());
    Ok(Numbers::from_vec(code))
}

// The image with these class numbers and this code.
fn image_by(alloc: Global, labels: &Labels, code: Numbers) -> Result<Image, AllocError>
    ensures labels { IfOk result (λ image. labels_of image ≡ labels.now) }
    ensures code { IfOk result (λ image. image.code ≡ code) }
{
    let tary = Vec::from_slice(alloc, labels.tary.as_slice())?;
    let bary = Vec::from_slice(alloc, labels.bary.as_slice())?;
    Ok(Image {
        tary: Numbers::from_vec(tary),
        bary: Numbers::from_vec(bary),
        code,
    })
}

impl Book {
    /// The image of the modules, with its classes numbered from 1 in the order of their least slots, and with this
    /// code.
    ///
    /// The modules and the layout are as `image_of` takes them; the code has the layout's number of words.
    pub fn of(
        alloc: Global,
        modules: &[Placed],
        code: &[u32],
        layout: &Layout,
    ) -> Result<Book, AllocError>
        requires modules { HaveImage modules.now layout.now }
        requires code { length code.now ≡ layout.now }
        ensures stands { IfOk result (StandsFor modules.now) }
        ensures order { IfOk result (λ book.
            AreOrderedBySlot (DirectEdge modules.now) book.image.bary) }
        ensures words { IfOk result (λ book. length book.image.tary ≡ layout.now) }
        ensures code { IfOk result (λ book. book.image.code ≡ code.now) }
        ensures labels { IfOk result (λ book. AreLabels (DirectEdge modules.now) layout.now
            book.image.tary book.image.bary) }
    {
        let graph = KeptGraph::of(alloc, modules)?;
        let kept = Kept::of(alloc, graph.edges(), layout.slots(), layout)?;
        let code = Numbers::from_vec(Vec::from_slice(alloc, code)?);
        let image = image_by(alloc, kept.labels(), code)?;
        Ok(Book {
            layout: *layout,
            graph,
            kept,
            image,
        })
    }

    /// The image of the modules and of one more, where the book stands for these modules alone. It stays as it is.
    ///
    /// A class of which something had a number has the least of these. The new classes, in the order of their least
    /// slots, take the least number each that nothing had and none of them has taken. The code has the new module's
    /// words at its place, so it is that of all modules whose code it was, and of the new one. Together the modules are
    /// as `image_of` takes them. Their links are not worked out anew: what is looked at is as `grown` of `KeptGraph`
    /// says.
    pub fn extended(&self, alloc: Global, old: &[Placed], new: &Placed) -> Result<Book, AllocError>
        requires modules { HaveImage (old.now ++ new.now ∷ []) (length self.now.image.tary) }
        requires stands { StandsFor old.now self.now }
        ensures stands { IfOk result (StandsFor (old.now ++ new.now ∷ [])) }
        ensures kept { IfOk result (λ book.
            KeepsNumbers (old.now ++ new.now ∷ []) self.now.image book.image) }
        ensures words { IfOk result (λ book.
            length book.image.tary ≡ length self.now.image.tary) }
        ensures code { IfOk result (λ book.
            PutsWords new.now self.now.image.code book.image.code) }
        ensures labels { IfOk result (λ book. AreLabels (DirectEdge (old.now ++ new.now ∷ []))
            (length self.now.image.tary) book.image.tary book.image.bary) }
        ensures all { (all : List PlacedModule) →
            LieApart (all ++ new.now ∷ []) (length self.now.image.tary) →
            IsCodeOf all (length self.now.image.tary) self.now.image.code → IfOk result (λ book.
            IsCodeOf (all ++ new.now ∷ []) (length self.now.image.tary) book.image.code) }
    {
        let graph = self.graph.extended(alloc, old, new)?;
        let fresh = behind(self.graph.edges(), graph.edges());
        let kept = self.kept.joined(alloc, fresh, self.layout.slots())?;
        let code = with_words(alloc, self.image.code.as_slice(), new)?;
        let image = image_by(alloc, kept.labels(), code)?;
        Ok(Book {
            layout: self.layout,
            graph,
            kept,
            image,
        })
    }

    /// The image. It takes no memory.
    pub fn image(&self) -> &Image
        ensures { result.now ≡ self.now.image }
    {
        &self.image
    }
}
