//! The spelling of a term, by the table of labels.
ghost use Rattle.ir_core.specs.declared.errors.TermError.TheVariants as error;
ghost use Rattle.ir_core.specs.declared.handles.Part.{Part as PartSeen};
ghost use Rattle.ir_core.specs.declared.ids.SolverDefId.{SolverDefId as Id};
ghost use Rattle.ir_laws.specs.Heap.{Each, Heap, IsLive, names_in, tree_of};
ghost use Rattle.ir_laws.specs.Spelling.{bind_text, field_text, kind_text, spell as spelling};
ghost use Rattle.ir_laws.specs.Tree.{Text as TextSeen};
ghost use Rattle.ir_table.specs.Interner.{heap};
ghost use Rattle.ir_nodes.specs.Layers.{list_kids};
ghost use Rattle.ir_nodes.specs.Nodes.{field_seen, node_layer, variable_seen};
ghost use Rattle.ir_table.specs.Spelled.{
  AreSpelled,
  Begins,
  IsNoList,
  IsSpelled,
  list_text,
  name_text,
  node_text,
  places_text,
};
ghost use Rattle.ir_nodes.specs.Views.{part_of};
ghost use Rattle.std.specs.Prelude.{◌≡◌, ◌++◌, codes, Err, IfSome, OnOk, OnErr, map as mapped};

use crate::{Cached, InternList, Interner, Names};
use indexmap::IndexMap;
use ir_core::{AnyTerm, BoundRegionKind, BoundTyKind, BoundVarKind, Part, R, SolverDefId, Text};
use ir_laws::Part as Place;
use ir_nodes::{Field, Layer, List, Node, part_of};
use std::alloc::Global;

// The least size of a part whose spelling is remembered: to spell a smaller one costs less.
const LARGE: u64 = 8;

/// Where a part is spelled in a text.
#[derive(Clone, Copy, PartialEq, Eq, Debug)]
pub(crate) struct Span {
    pub(crate) start: usize,
    pub(crate) end: usize,
}

/// The larger parts that a text spells, each with a place where it stands there, so that none is spelled twice. A part's tree never changes, so this stays so while the text and an interner grow.
#[derive(Drop)]
pub struct Spellings {
    spans: IndexMap<Part, Span>,
}

impl Spellings {
    /// No parts, which takes no memory.
    pub fn new(alloc: Global) -> Spellings
        ensures { (name : Id → TextSeen) (h : Heap PartSeen) (text : TextSeen) → AreSpelled name h text result }
    {
        Spellings {
            spans: IndexMap::new(alloc),
        }
    }

    // Where the part is spelled, if it is known.
    fn find(&self, cx: &Interner, part: Part) -> Option<Span>
        requires { IsLive (heap cx.now) part }
        ensures { (name : Id → TextSeen) (h : Heap PartSeen) (text : TextSeen) → AreSpelled name h text self.now → IfSome result (IsSpelled name h text part) }
    {
        if part.size(cx) < LARGE {
            return None;
        }
        self.spans.get(&part).copied()
    }

    // Remembers where the part is spelled.
    fn keep(&mut self, cx: &Interner, part: Part, span: Span) -> R<()>
        requires { IsLive (heap cx.now) part }
        ensures kept { (name : Id → TextSeen) (h : Heap PartSeen) (text : TextSeen) → AreSpelled name h text self.old → IsSpelled name h text part span → OnOk result (AreSpelled name h text self.new) }
        ensures err { OnErr result (result ≡ Err error.Memory) }
    {
        if part.size(cx) < LARGE {
            return Ok(());
        }
        self.spans.insert(part, span)?;
        Ok(())
    }
}

/// Puts the spelling of the term behind the text, with the items' names; an item without a name is `?`. It is refused only for want of memory, and the text is then as it was.
pub fn spell<N: Names>(
    alloc: Global,
    cx: &Interner,
    names: &N,
    term: AnyTerm,
    out: &mut Text,
) -> R<()>
    requires { IsLive (heap cx.now) (part_of term) }
    ensures ok { OnOk result (out.new ≡ out.old ++ spelling (name_text (N.named names.now)) (tree_of (heap cx.now) (part_of term))) }
    ensures err { OnErr result ((out.new ≡ out.old) × (result ≡ Err error.Memory)) }
{
    spell_again(alloc, cx, names, term, &mut Spellings::new(alloc), out)
}

/// The same, where the text spells some parts already: what of the term is among these is copied. When it is refused none is known any more.
pub fn spell_again<N: Names>(
    alloc: Global,
    cx: &Interner,
    names: &N,
    term: AnyTerm,
    known: &mut Spellings,
    out: &mut Text,
) -> R<()>
    requires live { IsLive (heap cx.now) (part_of term) }
    requires known { AreSpelled (name_text (N.named names.now)) (heap cx.now) out.old known.old }
    ensures ok { OnOk result (out.new ≡ out.old ++ spelling (name_text (N.named names.now)) (tree_of (heap cx.now) (part_of term))) }
    ensures known { AreSpelled (name_text (N.named names.now)) (heap cx.now) out.new known.new }
    ensures err { OnErr result ((out.new ≡ out.old) × (result ≡ Err error.Memory)) }
{
    let length = out.as_bytes().len();
    let answer = spell_part(alloc, cx, names, part_of(term), known, out);
    if answer.is_err() {
        *known = Spellings::new(alloc);
        out.truncate(length);
    }
    answer
}

// The part, whatever it is.
#[cycle(spelling)]
fn spell_part<N: Names>(
    alloc: Global,
    cx: &Interner,
    names: &N,
    part: Part,
    known: &mut Spellings,
    out: &mut Text,
) -> R<()>
    requires live { IsLive (heap cx.now) part }
    requires known { AreSpelled (name_text (N.named names.now)) (heap cx.now) out.old known.old }
    ensures ok { OnOk result (out.new ≡ out.old ++ spelling (name_text (N.named names.now)) (tree_of (heap cx.now) part)) }
    ensures known { OnOk result (AreSpelled (name_text (N.named names.now)) (heap cx.now) out.new known.new) }
    ensures err { OnErr result (Begins out.old out.new × (result ≡ Err error.Memory)) }
{
    if let Some(span) = known.find(cx, part) {
        return out.append_within(span.start, span.end);
    }
    let start = out.as_bytes().len();
    match cx.layer(part) {
        Layer::Node(node) => spell_node(alloc, cx, names, node, known, out)?,
        Layer::List(list) => spell_list(alloc, cx, names, list, known, out)?,
    }
    let end = out.as_bytes().len();
    known.keep(cx, part, Span { start, end })
}

// A node that is no list: a bare word, or the word and its places in brackets.
#[cycle(spelling)]
fn spell_node<N: Names>(
    alloc: Global,
    cx: &Interner,
    names: &N,
    node: &Node,
    known: &mut Spellings,
    out: &mut Text,
) -> R<()>
    requires live { Each (IsLive (heap cx.now)) (names_in (node_layer node.now)) }
    requires no_list { IsNoList (node_layer node.now).label }
    requires known { AreSpelled (name_text (N.named names.now)) (heap cx.now) out.old known.old }
    ensures ok { OnOk result (out.new ≡ out.old ++ node_text (name_text (N.named names.now)) (heap cx.now) node.now) }
    ensures known { OnOk result (AreSpelled (name_text (N.named names.now)) (heap cx.now) out.new known.new) }
    ensures err { OnErr result (Begins out.old out.new × (result ≡ Err error.Memory)) }
{
    let word = node.word.text();
    let places = node.word.parts();
    if places.is_empty() {
        return out.append(word);
    }
    append_both(out, b"(", word)?;
    spell_places(alloc, cx, names, places, node, known, out)?;
    out.append(b")")
}

// What stands behind the word of a node: in each place its word, the next field or the next kid, behind a space. It ends where these run out.
#[cycle(spelling)]
fn spell_places<N: Names>(
    alloc: Global,
    cx: &Interner,
    names: &N,
    places: &[Place],
    node: &Node,
    known: &mut Spellings,
    out: &mut Text,
) -> R<()>
    requires live { Each (IsLive (heap cx.now)) (names_in (node_layer node.now)) }
    requires known { AreSpelled (name_text (N.named names.now)) (heap cx.now) out.old known.old }
    ensures ok { OnOk result (out.new ≡ out.old ++ places_text (name_text (N.named names.now)) (heap cx.now) places.now node.now) }
    ensures known { OnOk result (AreSpelled (name_text (N.named names.now)) (heap cx.now) out.new known.new) }
    ensures err { OnErr result (Begins out.old out.new × (result ≡ Err error.Memory)) }
{
    let mut fields = 0;
    let mut kids = 0;
    for place in places {
        match *place {
            Place::Fixed(word) => append_both(out, b" ", word.text())?,
            Place::ForGroup => {
                if let Some(variables) = node.binder() {
                    spell_variables(names, variables.as_slice(cx), out)?;
                }
            }
            Place::AField(_) => {
                let Some(field) = node.field(fields) else {
                    return Ok(());
                };
                spell_field(alloc, names, field, out)?;
                fields += 1;
            }
            Place::AKid(_) => {
                let Some(kid) = node.kids().get(kids) else {
                    return Ok(());
                };
                out.append(b" ")?;
                spell_part(alloc, cx, names, kid, known, out)?;
                kids += 1;
            }
        }
    }
    Ok(())
}

// The kids of a list in brackets.
#[cycle(spelling)]
fn spell_list<N: Names>(
    alloc: Global,
    cx: &Interner,
    names: &N,
    list: List<'_>,
    known: &mut Spellings,
    out: &mut Text,
) -> R<()>
    requires live { Each (IsLive (heap cx.now)) (list_kids list) }
    requires known { AreSpelled (name_text (N.named names.now)) (heap cx.now) out.old known.old }
    ensures ok { OnOk result (out.new ≡ out.old ++ list_text (name_text (N.named names.now)) (heap cx.now) list.entry) }
    ensures known { OnOk result (AreSpelled (name_text (N.named names.now)) (heap cx.now) out.new known.new) }
    ensures err { OnErr result (Begins out.old out.new × (result ≡ Err error.Memory)) }
{
    out.append(b"(")?;
    let mut space: &[u8] = b"";
    for index in 0..list.kid_count() {
        out.append(space)?;
        spell_part(alloc, cx, names, list.kid(index), known, out)?;
        space = b" ";
    }
    out.append(b")")
}

// The variables of a binder behind a space, as a group that begins with `for`.
fn spell_variables<N: Names>(names: &N, variables: &[BoundVarKind], out: &mut Text) -> R<()>
    ensures ok { OnOk result (out.new ≡ out.old ++ (codes " " ++ bind_text (name_text (N.named names.now)) (mapped variable_seen variables.now))) }
    ensures err { OnErr result (Begins out.old out.new × (result ≡ Err error.Memory)) }
{
    out.append(b" (for")?;
    for variable in variables {
        out.append(b" ")?;
        spell_variable(names, *variable, out)?;
    }
    out.append(b")")
}

// A field behind a space.
fn spell_field<N: Names>(alloc: Global, names: &N, field: Field, out: &mut Text) -> R<()>
    ensures ok { OnOk result (out.new ≡ out.old ++ (codes " " ++ field_text (name_text (N.named names.now)) (field_seen field))) }
    ensures err { OnErr result (Begins out.old out.new × (result ≡ Err error.Memory)) }
{
    out.append(b" ")?;
    match field {
        Field::Chosen(keyword) => out.append(keyword.text()),
        Field::Number(number) => out.append(number.to_string(alloc)?.as_bytes()),
        Field::OfKind(kind) => spell_variable(names, kind, out),
    }
}

// What a variable is: the letter of its sort, with the name of the item that declares it behind a colon, or `env`.
fn spell_variable<N: Names>(names: &N, kind: BoundVarKind, out: &mut Text) -> R<()>
    ensures ok { OnOk result (out.new ≡ out.old ++ kind_text (name_text (N.named names.now)) (variable_seen kind)) }
    ensures err { OnErr result (Begins out.old out.new × (result ≡ Err error.Memory)) }
{
    match kind {
        BoundVarKind::Ty(BoundTyKind::Anon) => out.append(b"t"),
        BoundVarKind::Ty(BoundTyKind::Param(id)) => append_both(out, b"t:", name_of(names, id)),
        BoundVarKind::Region(BoundRegionKind::Anon) => out.append(b"r"),
        BoundVarKind::Region(BoundRegionKind::Named(id)) => {
            append_both(out, b"r:", name_of(names, id))
        }
        BoundVarKind::Region(BoundRegionKind::ClosureEnv) => out.append(b"env"),
        BoundVarKind::Const => out.append(b"c"),
    }
}

// The name of the item, or `?`.
fn name_of<N: Names>(names: &N, id: SolverDefId) -> &[u8]
    ensures { result.now ≡ name_text (N.named names.now) id }
{
    match names.name(id) {
        Some(name) => name.as_bytes(),
        None => b"?",
    }
}

// Two texts, one behind the other.
fn append_both(out: &mut Text, first: &[u8], second: &[u8]) -> R<()>
    ensures ok { OnOk result (out.new ≡ out.old ++ (first.now ++ second.now)) }
    ensures err { OnErr result (Begins out.old out.new × (result ≡ Err error.Memory)) }
{
    out.append(first)?;
    out.append(second)
}
