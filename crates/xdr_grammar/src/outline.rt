//! What definitions declare, with names in place of what they stand for.

/// A type that is there without a definition.
#[derive(Clone, Copy, PartialEq, Eq)]
pub enum Basic {
    Int,
    Unsigned,
    Hyper,
    UnsignedHyper,
    Bool,
}

/// Which body a struct, a union or an enum has.
#[derive(Clone, Copy, PartialEq, Eq)]
pub(crate) enum BodyKind {
    Enum,
    Struct,
    Union,
}

/// A name of the text, and its place: how many bytes there are from it to the end.
#[derive(Clone, Copy)]
pub struct Name<'a> {
    pub text: &'a str,
    pub left: usize,
}

/// A constant of the text, and its place: how many bytes there are from it to the end.
#[derive(Clone, Copy)]
pub struct Number {
    pub value: i128,
    pub left: usize,
}

/// A number, or the name of one among the constants before it.
#[derive(Clone, Copy)]
pub enum Late<'a> {
    Given(Number),
    Earlier { name: Name<'a>, before: usize },
}

/// What a type specifier or a declaration stands for.
#[derive(Clone, Copy)]
pub enum Part<'a> {
    Basic(Basic),
    Named(Name<'a>),
    /// `struct` and a name.
    Struct(Name<'a>),
    /// The shape at this place of the list of shapes.
    Made(usize),
    /// The same, of a definition `struct NAME {..}`.
    StructMade(usize),
    Text,
    Void,
}

/// A declaration: what it declares, and as what. Void has the empty name.
#[derive(Clone, Copy)]
pub struct Field<'a> {
    pub name: Name<'a>,
    pub part: Part<'a>,
}

/// A constant: one that `const` declares, or a member of an enum.
#[derive(Clone, Copy)]
pub struct Entry<'a> {
    pub name: Name<'a>,
    pub value: Late<'a>,
    pub by_const: bool,
}

/// A member of an enum.
#[derive(Clone, Copy)]
pub struct Member<'a> {
    pub name: Name<'a>,
    pub value: Late<'a>,
}

/// The numbers of an arm of a union, and what it is.
#[derive(Drop)]
pub struct Arm<'a> {
    pub cases: Vec<Late<'a>>,
    pub member: Field<'a>,
}

/// A kind whose names are not looked up.
#[derive(Drop)]
pub enum Shape<'a> {
    Numbered(Vec<Member<'a>>),
    Opaque(Late<'a>),
    OpaqueUpTo(Option<Late<'a>>),
    Text(Option<Late<'a>>),
    Fixed(Part<'a>, Late<'a>),
    UpTo(Part<'a>, Option<Late<'a>>),
    Structure(Vec<Field<'a>>),
    Choice(Part<'a>, Vec<Arm<'a>>, Option<Field<'a>>),
    Maybe(Part<'a>),
}

/// A shape, and the place of the declaration or definition that spells it.
#[derive(Drop)]
pub struct Draft<'a> {
    pub shape: Shape<'a>,
    pub left: usize,
}

/// A procedure.
#[derive(Drop)]
pub struct Procedure<'a> {
    pub name: Name<'a>,
    pub number: Number,
    pub arguments: Vec<Part<'a>>,
    pub result: Option<Part<'a>>,
}

/// A version of a program.
#[derive(Drop)]
pub struct Version<'a> {
    pub name: Name<'a>,
    pub number: Number,
    pub procedures: Vec<Procedure<'a>>,
}

/// A program.
#[derive(Drop)]
pub struct Program<'a> {
    pub name: Name<'a>,
    pub number: Number,
    pub versions: Vec<Version<'a>>,
}

/// What the definitions declare, with names in place of what they stand for.
#[derive(Drop)]
pub struct Outline<'a> {
    pub constants: Vec<Entry<'a>>,
    pub drafts: Vec<Draft<'a>>,
    pub types: Vec<Field<'a>>,
    pub programs: Vec<Program<'a>>,
}
