//! Texts that grow at their end.

ghost use Rattle.std.specs.Prelude.{◌≡◌, ◌++◌, OnErr, OnOk};
ghost use Rattle.cy_bytes.specs.Quoting.{quoted};

use cy_bytes::{Bytes, NoMemory, quote};
use std::alloc::Global;
use std::mem;

/// Appends a text that was built aside, all of it at once. Where memory runs out, nothing is appended.
pub(crate) fn append(alloc: Global, into: &mut Bytes, text: &[u8]) -> Result<(), NoMemory>
    ensures appended { OnOk result (into.new ≡ into.old ++ text.now) }
    ensures unchanged { OnErr result (into.new ≡ into.old) }
{
    // The vector is taken out, grows, and is put back whether it could grow or not.
    let mut bytes = mem::replace(into, Bytes::of(Vec::new(alloc))).into_vec();
    let grown = bytes.extend_from_slice(text);
    *into = Bytes::of(bytes);
    Ok(grown?)
}

/// Appends the quoted text of these bytes, without the quotation marks.
pub(crate) fn push_quoted(alloc: Global, text: &mut Vec<u8>, bytes: &[u8]) -> Result<(), NoMemory>
    ensures { OnOk result (text.new.items ≡ text.old.items ++ quoted bytes.now) }
{
    let inner = quote(alloc, bytes)?;
    text.extend_from_slice(inner.as_slice())?;
    Ok(())
}
