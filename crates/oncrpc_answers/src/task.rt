//! What the words ask for.

/// What the words ask for.
#[derive(PartialEq, Eq, Drop)]
pub enum Task {
    /// Read one value, and print what the input holds.
    Check(ValueTask),
    /// Read one value, and print its lines and what the input holds.
    Show(ValueTask),
    /// Read one value, and print it as JSON.
    Json(JsonTask),
    /// Write a stream of records in its normal form.
    Records(RecordsTask),
}

/// One value to be read from the input.
#[derive(PartialEq, Eq, Drop)]
pub struct ValueTask {
    /// The name of its kind.
    pub name: String,
    /// The texts that declare it.
    pub types: Texts,
    /// Whether the input is a text of hexadecimal.
    pub hex: bool,
    /// The limit on depth.
    pub depth: u32,
    /// The limit on bytes.
    pub bytes: u32,
}

/// One value to be printed as JSON.
#[derive(PartialEq, Eq, Drop)]
pub struct JsonTask {
    /// The value.
    pub what: ValueTask,
    /// Whether each item and each member has a line.
    pub indented: bool,
}

/// Texts of declarations.
#[derive(PartialEq, Eq, Drop)]
pub struct Texts {
    /// Their names, in the order in which they are one text. Without any there are the basic kinds alone.
    pub files: Vec<String>,
    /// The language that they are in.
    pub dialect: Dialect,
}

/// The language of texts of declarations.
#[derive(PartialEq, Eq, Drop)]
pub enum Dialect {
    /// That of the RFCs.
    Rfc,
    /// That of rpcgen, for whose lines `#ifdef` these names are defined.
    Rpcgen(Vec<String>),
}

/// Texts whose declarations are to be printed.
#[derive(PartialEq, Eq, Drop)]
pub struct TypesTask {
    /// The texts.
    pub types: Texts,
    /// Whether they are printed as JSON, and not as lines.
    pub json: bool,
}

/// Records to be read from the input.
#[derive(PartialEq, Eq, Drop)]
pub struct RecordsTask {
    /// The limit on the bytes of a record.
    pub limit: u32,
    /// Whether the input is a text of hexadecimal, and the output too.
    pub hex: bool,
}
