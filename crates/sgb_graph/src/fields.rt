ghost use Rattle.std.specs.Prelude.{◌≡◌};
ghost use Rattle.sgb_graph.specs.Columns.{util_seen};
ghost use Rattle.sgb_graph.specs.Kinds.{letter_of};
ghost use Rattle.sgb_graph.specs.Parts.{vertex_with_ints};
ghost use Rattle.sgb_graph.specs.inner.Columns.{util_kind};

use sgb_vec::Text;

/// What a utility field holds: nothing, an integer, a vertex, a string or an arc (GB_GRAPH, util_types).
#[derive(Clone, Copy, Debug, PartialEq, Eq)]
pub enum Kind {
    /// Not used.
    Z,
    /// An integer.
    I,
    /// A vertex.
    V,
    /// A string.
    S,
    /// An arc.
    A,
}

impl Kind {
    /// The letter that stands for it in a file: Z, I, V, S or A (GB_GRAPH, util_types).
    pub fn letter(self) -> u8
        ensures { result ≡ letter_of self }
    {
        match self {
            Kind::Z => b'Z',
            Kind::I => b'I',
            Kind::V => b'V',
            Kind::S => b'S',
            Kind::A => b'A',
        }
    }
}

/// A vertex, or one of the two values that stand for none.
#[derive(Clone, Copy, Debug, PartialEq, Eq)]
pub enum Ref {
    /// The null pointer.
    Null,
    /// The pointer value 1.
    One,
    /// The vertex of this number.
    At(u32),
}

/// The value of a utility field.
#[derive(Drop)]
pub enum Util {
    /// The field is not used.
    Nothing,
    /// An integer.
    Int(i64),
    /// A vertex, or none.
    Vertex(Ref),
    /// A string.
    Str(Text),
    /// An arc record by its number, or none.
    Chain(Option<usize>),
}

impl Util {
    /// The value, seen where it stands.
    pub fn seen(&self) -> UtilRef<'_>
        ensures { util_seen result ≡ self.now }
    {
        match self {
            Util::Nothing => UtilRef::Nothing,
            Util::Int(number) => UtilRef::Int(*number),
            Util::Vertex(vertex) => UtilRef::Vertex(*vertex),
            Util::Str(text) => UtilRef::Str(text),
            Util::Chain(first) => UtilRef::Chain(*first),
        }
    }

    // The kind of the value.
    pub(crate) fn kind(&self) -> Kind
        ensures { result ≡ util_kind self.now }
    {
        match self {
            Util::Nothing => Kind::Z,
            Util::Int(_) => Kind::I,
            Util::Vertex(_) => Kind::V,
            Util::Str(_) => Kind::S,
            Util::Chain(_) => Kind::A,
        }
    }
}

/// The value of a utility field of a graph, seen where the graph keeps it.
#[derive(Clone, Copy)]
pub enum UtilRef<'a> {
    /// The field is not used.
    Nothing,
    /// An integer.
    Int(i64),
    /// A vertex, or none.
    Vertex(Ref),
    /// A string.
    Str(&'a Text),
    /// An arc record by its number, or none.
    Chain(Option<usize>),
}

/// A vertex: its name, the first record of its list of arcs, and its utility fields u, v, w, x, y, z.
#[derive(Drop)]
pub struct Vertex {
    pub name: Text,
    pub arcs: Option<usize>,
    pub util: [Util; 6],
}

impl Vertex {
    // The vertex with this name and this first record, which holds integers in x, y, z and nothing in u, v, w.
    pub(crate) fn with_ints(name: Text, arcs: Option<usize>, x: i64, y: i64, z: i64) -> Vertex
        ensures { result ≡ vertex_with_ints name arcs x y z }
    {
        let util = [
            Util::Nothing,
            Util::Nothing,
            Util::Nothing,
            Util::Int(x),
            Util::Int(y),
            Util::Int(z),
        ];
        Vertex { name, arcs, util }
    }
}

/// An arc record: where it leads, the next record of the list that it is on, its length, and its utility
/// fields a and b.
#[derive(Drop)]
pub struct ArcRec {
    pub tip: Ref,
    pub next: Option<usize>,
    pub len: i64,
    pub a: Util,
    pub b: Util,
}

/// A vertex, seen where its graph keeps it: its name, the first record of its list of arcs, and its utility fields
/// u, v, w, x, y, z.
#[derive(Clone, Copy)]
pub struct VertexRef<'a> {
    pub name: &'a Text,
    pub arcs: Option<usize>,
    pub util: [UtilRef<'a>; 6],
}

/// An arc record, seen where its graph keeps it: where it leads, the next record of the list that it is on, its
/// length, and its utility fields a and b.
#[derive(Clone, Copy)]
pub struct ArcRef<'a> {
    pub tip: Ref,
    pub next: Option<usize>,
    pub len: i64,
    pub a: UtilRef<'a>,
    pub b: UtilRef<'a>,
}

/// An arc of a vertex's list: the number of its record, the vertex where it leads, and its length.
#[derive(Clone, Copy, Debug, PartialEq, Eq)]
pub struct Link {
    pub number: usize,
    pub tip: u32,
    pub len: i64,
}
