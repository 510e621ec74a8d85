//! Images of modules and the policies of their direct edges, of modules that are written by hand.

ghost use Rattle.std.specs.Prelude.{◌≡◌, [], ◌∷◌, IfOk, length};
ghost use Rattle.cfi_graph.specs.Reading.{HaveGraph};
ghost use Rattle.cfi_policy.specs.Book.{StandsFor};
ghost use Rattle.cfi_policy.specs.Image.{HaveImage};

use crate::made::calls;
use cfi_aux::Placed;
use cfi_graph::{edges, fresh};
use cfi_policy::{Book, Group, allowed, groups, image_from, image_of, low_modules_have_image};
use cfi_type_table::TypeTable;
use cfi_types::TypeBook;
use cfi_values::{Bytes, Items};
use cfi_word::{Edge, Image, Layout};
use std::alloc::{AllocError, Global};

// A module of these words at this place, and of nothing else.
fn module_of(alloc: Global, base: u32, words: &[u32]) -> Result<Placed, AllocError>
    ensures base { IfOk result (λ placed. placed.base ≡ base) }
    ensures words { IfOk result (λ placed. placed.words ≡ words.now) }
{
    Ok(Placed {
        base,
        slot_base: 0,
        data_base: 0x40000000,
        words: Items::from_vec(Vec::from_slice(alloc, words)?),
        static_data: Bytes::from_vec(Vec::new(alloc)),
        functions: Items::from_vec(Vec::new(alloc)),
        branches: Items::from_vec(Vec::new(alloc)),
        types: TypeTable::from_vec(Vec::new(alloc)),
        exports: Items::from_vec(Vec::new(alloc)),
    })
}

/// The image of a module of two words, and of no edges.
#[tactic(auto, using(crate::proofs::HandMadeLemmas::one_apart, crate::proofs::HandMadeLemmas::none_labelled))]
pub fn image(alloc: Global) -> Result<bool, AllocError> {
    let layout = Layout::new(1024).unwrap();
    let modules = [module_of(alloc, 16, &[0x008000ef, 0x0000006f])?];
    let image = image_from(alloc, &[], 2, &modules, &layout)?;
    let mut code = vec![in alloc; 0; 1024]?;
    code[16] = 0x008000ef;
    code[17] = 0x0000006f;
    let tary = vec![in alloc; 0; 1024]?;
    let bary = vec![in alloc; 16383; 74]?;
    Ok(
        image.code.as_slice() == code.as_slice()
            && image.tary.as_slice() == tary.as_slice()
            && image.bary.as_slice() == bary.as_slice(),
    )
}

// Whether these are the edges, by slot and address.
fn are_edges(edges: &[Edge], rows: &[(u32, u32)]) -> bool {
    edges.len() == rows.len()
        && edges
            .iter()
            .zip(rows)
            .all(|(edge, row)| edge.branch == row.0 && edge.target == row.1)
}

// Whether these are the groups, by slots and addresses.
fn are_groups(groups: &[Group], rows: &[(&[u32], &[u32])]) -> bool {
    groups.len() == rows.len()
        && groups.iter().zip(rows).all(|(group, row)| group.branches.as_slice() == row.0
            && group.targets.as_slice() == row.1)
}

// Whether the policy allows what the classes of the image allow, from each of three slots to each of some addresses.
fn agree(alloc: Global, modules: &[Placed], image: &Image) -> Result<bool, AllocError>
    requires { HaveGraph modules.now }
{
    let mut agree = true;
    for slot in 0..3 {
        for word in [17, 18, 33] {
            let joined = allowed(alloc, modules, slot, 4 * word)?;
            let branch = image.bary.as_slice().get(slot as usize);
            let target = image.tary.as_slice().get(word as usize);
            agree = agree && joined == (branch == target);
        }
    }
    Ok(agree)
}

// Whether these are the edges and the groups of the modules, and their image and their policy agree.
fn is_policy(
    alloc: Global,
    modules: &[Placed],
    pairs: &[(u32, u32)],
    rows: &[(&[u32], &[u32])],
) -> Result<bool, AllocError>
    requires { HaveImage modules.now 1024 }
{
    let all = edges(alloc, modules)?;
    let found = groups(alloc, modules)?;
    let layout = Layout::new(1024).unwrap();
    let image = image_of(alloc, modules, &layout)?;
    Ok(
        are_edges(all.as_slice(), pairs)
            && are_groups(found.as_slice(), rows)
            && agree(alloc, modules, &image)?,
    )
}

// The edges of the module of calls, by hand from what it is; `made.rt` has it.
//
// f is at 0x84, g at 0xbc, the addresses after the calls are 0x44, 0x48 and 0x80.
const CALL_EDGES: [(u32, u32); 6] = [
    (0, 0x84),
    (0, 0xbc),
    (1, 0x44),
    (1, 0x80),
    (2, 0x48),
    (2, 0x80),
];

/// Edges, groups and policy, by hand.
pub fn policies(alloc: Global) -> Result<bool, AllocError> {
    let modules = [calls(alloc, 1)?];
    let rows: [(&[u32], &[u32]); 2] = [(&[0], &[0x84, 0xbc]), (&[1, 2], &[0x44, 0x48, 0x80])];
    // By a chain, and by none.
    Ok(
        is_policy(alloc, &modules, &CALL_EDGES, &rows)?
            && allowed(alloc, &modules, 1, 0x48)?
            && !allowed(alloc, &modules, 1, 0x84)?,
    )
}

// The edges that the module brings to none.
fn brought(alloc: Global, placed: &Placed) -> Result<Vec<Edge>, AllocError>
    requires { HaveGraph (placed.now ∷ []) }
{
    let mut types = TypeBook::new(alloc);
    types.add(&placed.types)?;
    fresh(alloc, &[], placed, &types.classes()?)
}

/// A module comes to none: all its edges are new.
pub fn new_edges(alloc: Global) -> Result<bool, AllocError> {
    let found = brought(alloc, &calls(alloc, 1)?)?;
    Ok(are_edges(found.as_slice(), &CALL_EDGES))
}

// Whether these slots and these code words have the class numbers.
fn has_classes(image: &Image, slots: &[u32], words: &[(usize, u32)]) -> bool {
    image.bary.as_slice().starts_with(slots)
        && words.iter().all(|(word, class)| image.tary.as_slice().get(*word) == Some(class))
}

// The book of no modules.
fn empty_book(alloc: Global) -> Result<Book, AllocError>
    ensures stands { IfOk result (StandsFor []) }
    ensures words { IfOk result (λ book. length book.image.tary ≡ 1024) }
{
    low_modules_have_image();
    let layout = Layout::new(1024).unwrap();
    let code = vec![in alloc; 0; 1024]?;
    Book::of(alloc, &[], code.as_slice(), &layout)
}

// The book of a module that comes to a book of none.
fn book_with(alloc: Global, empty: Book, placed: &Placed) -> Result<Book, AllocError>
    requires stands { StandsFor [] empty }
    requires image { HaveImage (placed.now ∷ []) (length empty.image.tary) }
{
    empty.extended(alloc, &[], placed)
}

// Whether the image of the book has the two classes of the module of calls, and its words in their places.
fn has_calls(book: Book, placed: &Placed) -> bool {
    let words = [(33, 1), (47, 1), (17, 2), (18, 2), (32, 2), (16, 0)];
    let image = book.image();
    has_classes(image, &[1, 2, 2, 16383], &words)
        && image.code.as_slice()[16..].starts_with(placed.words.as_slice())
}

/// A module comes to a book of none: its two classes are numbered from 1, and its words stand in their places.
pub fn book(alloc: Global) -> Result<bool, AllocError> {
    let placed = calls(alloc, 1)?;
    let empty = empty_book(alloc)?;
    let book = book_with(alloc, empty, &placed)?;
    Ok(has_calls(book, &placed))
}
