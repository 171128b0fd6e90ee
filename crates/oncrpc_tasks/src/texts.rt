//! The texts of files.
ghost use Rattle.std.specs.Prelude.{◌≡◌, ◌++◌, [], ◌∷◌, IfOk, IfErr, OnOk, IsErrOf};
ghost use Rattle.oncrpc_tasks.specs.Private.Gathered.{AreRead, IsFailed, ReadsFile, texts_bytes};
ghost use Rattle.oncrpc_tasks.specs.Sources.{FileFails};
ghost use Rattle.xdr_rpcgen.specs.Files.{contents};

use super::open::Opener;
use super::unusable::Unusable;
use oncrpc_answers::Failure;
use std::alloc::{AllocError, Global};
use xdr_io::read_past;
use xdr_lang::MAX_TEXT;

// The text of a file, or more than 262144 bytes of it.
fn text_of<P: Opener>(alloc: Global, file: &str, opener: &mut P) -> Result<Vec<u8>, Unusable>
    ensures reads { ReadsFile P.Text.left P.Text.failures (P.reported opener.old file.now) (P.failures opener.old)
        (P.failures opener.new) result }
    ensures same { P.reported opener.new ≡ P.reported opener.old }
{
    let mut source = opener.open(file)?;
    let text = read_past(alloc, &mut source, MAX_TEXT)?;
    Ok(text)
}

fn add(texts: &mut Vec<Vec<u8>>, text: Vec<u8>) -> Result<(), AllocError>
    ensures { OnOk result (texts_bytes texts.new.items ≡ texts_bytes texts.old.items ++ (text.items ∷ [])) }
{
    texts.push(text)?;
    Ok(())
}

/// The texts of the files in their order, of each at most a page more than 262144 bytes.
pub fn texts_of<P: Opener>(
    alloc: Global,
    files: &[String],
    opener: &mut P,
) -> Result<Vec<Vec<u8>>, Unusable>
    // What is answered was read of the files,
    ensures read { IfOk result (λ texts. AreRead (P.reported opener.old) files.now (texts_bytes texts.items)) }
    // and the failure Read says that one could not be read.
    ensures failed { IsErrOf result (Unusable.Failed Failure.Read)
        → FileFails P.Text.left P.Text.failures (P.reported opener.old) files.now
        (P.failures opener.old) (P.failures opener.new) }
    // Nothing is refused but for that, or an allocation failure.
    ensures only { IfErr result IsFailed }
{
    let mut texts = Vec::new(alloc);
    let mut left = files;
    while let [file, others @ ..] = left {
        let text = text_of(alloc, file, opener)?;
        add(&mut texts, text)?;
        left = others;
    }
    Ok(texts)
}

/// The texts, lent.
pub fn lent<'a>(alloc: Global, texts: &'a [Vec<u8>]) -> Result<Vec<&'a [u8]>, AllocError>
    ensures { IfOk result (λ parts. contents parts.items ≡ texts_bytes texts.now) }
{
    let mut parts = Vec::new(alloc);
    let mut left = texts;
    while let [text, others @ ..] = left {
        parts.push(text.as_slice())?;
        left = others;
    }
    Ok(parts)
}
