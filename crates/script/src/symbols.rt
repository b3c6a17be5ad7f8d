//! The names that are declared and bound, and what each stands for.

ghost use Rattle.std.specs.Prelude.{◌≡◌, length, OnOk};
ghost use Rattle.plain_model.specs.Kinds.{is_items};
ghost use Rattle.script.specs.Symbols.{cell_kind, kind_of_cell, class_of, collection_kind_of, contents_kind_of, source_fits, require, with_bound};

use imm_base::{Memory, Text24};
use plain_model::{CellDecl, Class, ItemKind, Kind, Names};
use script_line::Code;

/// The local name that a command binds, and what it binds it to.
pub(crate) type Binding = (Text24, Class);

/// The kind of the cell of this name, if one is declared.
pub(crate) fn cell_kind(cells: &[CellDecl], name: &Text24) -> Option<Kind>
    ensures { result ≡ cell_kind cells.now name.now }
{
    for cell in cells {
        if cell.name.as_bytes() == name.as_bytes() {
            return Some(cell.kind);
        }
    }
    None
}

pub(crate) fn kind_of_cell(cells: &[CellDecl], name: &Text24) -> Result<Kind, Code>
    ensures { result ≡ kind_of_cell cells.now name.now }
{
    cell_kind(cells, name).ok_or(Code::Name)
}

/// The class of what the name is bound to.
pub(crate) fn class_of(names: &Names<Class>, name: &Text24) -> Result<Class, Code>
    ensures { result ≡ class_of names.now name.now }
{
    match names.get(name) {
        Some(class) => Ok(*class),
        None => Err(Code::Name),
    }
}

/// The kind of the collection that the name is bound to.
pub(crate) fn collection_kind_of(names: &Names<Class>, name: &Text24) -> Result<Kind, Code>
    ensures { result ≡ collection_kind_of names.now name.now }
{
    let class = class_of(names, name)?;
    class.collection_kind().ok_or(Code::Kind)
}

/// The kind of what the name is bound to, where that has elements.
pub(crate) fn contents_kind_of(names: &Names<Class>, name: &Text24) -> Result<Kind, Code>
    ensures { result ≡ contents_kind_of names.now name.now }
{
    let class = class_of(names, name)?;
    class.contents_kind().ok_or(Code::Kind)
}

/// A test that is to hold, or this code.
pub(crate) fn require(code: Code, test: bool) -> Result<(), Code>
    ensures { result ≡ require code test }
{
    if test { Ok(()) } else { Err(code) }
}

fn is_items(needed: ItemKind, given: ItemKind) -> bool
    ensures { result ≡ is_items needed given }
{
    match (needed, given) {
        (ItemKind::Elements, ItemKind::Elements) => true,
        (ItemKind::Pairs, ItemKind::Pairs) => true,
        _ => false,
    }
}

/// Whether the name that gives a command's values, if one does, gives what is needed.
pub(crate) fn source_fits(
    names: &Names<Class>,
    needed: ItemKind,
    from: &Option<Text24>,
) -> Result<(), Code>
    ensures { result ≡ source_fits names.now needed from.now }
{
    match from {
        None => Ok(()),
        Some(name) => {
            let kind = contents_kind_of(names, name)?;
            require(Code::Kind, is_items(needed, kind.items()))
        }
    }
}

/// How many names there are with this one.
pub(crate) fn count_with(names: &Names<Class>, bound: &Option<Binding>) -> usize
    ensures { result ≡ length (with_bound names.now bound.now) }
{
    match bound {
        Some((name, _)) => names.count_with(name),
        None => names.count(),
    }
}

/// Binds the name, if there is one.
pub(crate) fn bind(names: &mut Names<Class>, bound: Option<Binding>) -> Result<(), Memory>
    ensures { OnOk result (names.new ≡ with_bound names.old bound) }
{
    match bound {
        Some((name, class)) => names.bind(name, class),
        None => Ok(()),
    }
}
