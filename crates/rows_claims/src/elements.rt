//! The elements after a line's question.
use roa_origin::Vrp;
use rpki_base::Asn;
use rpki_prefix::{MaxLenPrefix, Prefix};
use std::alloc::{AllocError, Allocator};
use std::str::FromStr;
use test_support::print::cut_at;

/// The value of a text between `|`.
pub trait Element: Sized + Drop {
    /// Returns the element, or `None` if the text is not an element.
    fn read(text: &str) -> Option<Self>;
}

/// `PREFIX[-MAX]`.
impl Element for MaxLenPrefix {
    fn read(text: &str) -> Option<MaxLenPrefix> {
        MaxLenPrefix::from_str(text).ok()
    }
}

/// `PREFIX[-MAX] AS`.
impl Element for Vrp {
    fn read(text: &str) -> Option<Vrp> {
        let (prefix, asn) = cut_at(text, ' ');
        Some((MaxLenPrefix::read(prefix)?, Asn::from_str(asn).ok()?))
    }
}

/// `PREFIX AS`.
impl Element for (Prefix, Asn) {
    fn read(text: &str) -> Option<(Prefix, Asn)> {
        let (prefix, asn) = cut_at(text, ' ');
        Some((Prefix::from_str(prefix).ok()?, Asn::from_str(asn).ok()?))
    }
}

/// Returns the elements between `|`, or `None` if a text is not an element.
///
/// Returns `AllocError` if memory for them runs out.
pub fn read<T: Element, A: Allocator>(
    alloc: A,
    list: &str,
) -> Result<Option<Vec<T, A>>, AllocError> {
    let mut elements = Vec::new(alloc);
    for text in list.split('|') {
        if !push_read(&mut elements, text.trim())? {
            return Ok(None);
        }
    }
    Ok(Some(elements))
}

/// Pushes the element of a text. Pushes nothing if the text is empty. Returns false if the text is not an element.
fn push_read<T: Element, A: Allocator>(
    elements: &mut Vec<T, A>,
    text: &str,
) -> Result<bool, AllocError> {
    match T::read(text) {
        Some(element) => {
            elements.push(element)?;
            Ok(true)
        }
        None => Ok(text.is_empty()),
    }
}
