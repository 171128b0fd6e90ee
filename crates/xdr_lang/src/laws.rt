//! What follows from the meaning of texts, whatever reads them.
ghost use Rattle.xdr_lang.specs.Means.{HasOneMeaning};
ghost use Rattle.xdr_lang.specs.Before.{LongWasAName, KeepsMeanings};

/// A text has at most one meaning, so what `read` gives is all that the text can mean. The call does nothing.
pub fn one_meaning()
    ensures { HasOneMeaning }
{}

/// A text in which neither `long` stands nor `struct` before a name that no body follows means what it meant before
/// these were words of the language. The call does nothing.
pub fn older_texts_keep_their_meanings()
    // A run of letters is the word that it was, but for long, which was a name.
    ensures words { LongWasAName }
    // A text without long means all that it meant; without "struct" identifier, too, it means nothing else.
    ensures meanings { KeepsMeanings }
{}
