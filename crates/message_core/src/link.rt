//! Digital Links: URIs that carry elements.
ghost use Rattle.std.specs.Prelude.{◌≡◌, ◌==◌, ◌++◌, not};
ghost use Rattle.std.specs.Char.{is_ascii_graphic};
ghost use Rattle.std.specs.List.{list_all};
ghost use Rattle.message_core.specs.Faults.{heard};
ghost use Rattle.message_core.specs.Links.{begins_any_case, begins_http, begins_https, begins_link, behind_scheme, entries_said, has_host, host_and_path, is_plain, is_plain_name, is_uri, is_written, link_said, parameters, path_entries, path_of, query_entries, query_of, segments, without_slash};

use crate::coding::is_coded;
use crate::cut::{before, behind, first_part, without_first};
use crate::fault::MessageFault;
use crate::pairs::{Pairs, put_path, put_query};
use crate::path::key_part;
use element_core::{ElementFault, Elements, Year};

/// Whether a text begins with these bytes, where each letter may be small or capital.
fn begins_any_case(small: &[u8], text: &[u8]) -> bool
    ensures { result ≡ begins_any_case small.now text.now }
{
    for (i, byte) in small.iter().enumerate() {
        if i >= text.len() {
            return false;
        }
        if text[i].to_ascii_lowercase() != *byte {
            return false;
        }
    }
    true
}

/// Whether a text begins with `http://`.
fn begins_http(text: &[u8]) -> bool
    ensures { result ≡ begins_http text.now }
{
    begins_any_case(b"http://", text)
}

/// Whether a text begins with `https://`.
fn begins_https(text: &[u8]) -> bool
    ensures { result ≡ begins_https text.now }
{
    begins_any_case(b"https://", text)
}

/// Whether a text begins like a URI of the web.
pub(crate) fn begins_link(text: &[u8]) -> bool
    ensures { result ≡ begins_link text.now }
{
    begins_http(text) || begins_https(text)
}

/// The text behind the scheme.
fn behind_scheme(text: &[u8]) -> &[u8]
    ensures { result.now ≡ behind_scheme text.now }
{
    if begins_http(text) {
        without_first(7, text)
    } else {
        without_first(8, text)
    }
}

/// The path without a slash at its end.
pub fn without_slash(path: &[u8]) -> &[u8]
    ensures { result.now ≡ without_slash path.now }
{
    let count = path.len();
    if count > 0 && path[count - 1] == b'/' {
        &path[..count - 1]
    } else {
        path
    }
}

/// Whether there is no such byte.
pub fn has_no(byte: u8, text: &[u8]) -> bool
    ensures { result ≡ list_all (λ b. not (b == byte)) text.now }
{
    text.iter().all(|b| *b != byte)
}

/// Whether there is no `%` in the name of a parameter.
fn is_plain_name(parameter: &[u8]) -> bool
    ensures { result ≡ is_plain_name parameter.now }
{
    has_no(b'%', before(b'=', parameter))
}

/// Whether no name of a query has a `%`.
fn has_plain_names(query: &[u8]) -> bool
    ensures { result ≡ list_all is_plain_name (parameters query.now) }
{
    let mut rest = query;
    loop {
        let (parameter, left) = first_part(b'&', rest);
        if !is_plain_name(parameter) {
            return false;
        }
        let Some(left) = left else {
            return true;
        };
        rest = left;
    }
}

/// Whether a query has no `;`, which some programs take for `&`, and no `%` in its names.
fn is_plain(query: &[u8]) -> bool
    ensures { result ≡ is_plain query.now }
{
    has_no(b';', query) && has_plain_names(query)
}

/// Whether all bytes are letters, digits and marks.
fn is_graphic(text: &[u8]) -> bool
    ensures { result ≡ list_all is_ascii_graphic text.now }
{
    text.iter().all(|byte| byte.is_ascii_graphic())
}

/// Whether a text has only the bytes of a URI, with two hexadecimal digits behind each `%`.
fn is_written(text: &[u8]) -> bool
    ensures { result ≡ is_written text.now }
{
    is_graphic(text) && is_coded(text)
}

/// Whether a URI has a host that is not empty.
fn has_host(text: &[u8]) -> bool
    ensures { result ≡ has_host text.now }
{
    !before(b'/', host_and_path(text)).is_empty()
}

/// The host and the path of a URI.
fn host_and_path(text: &[u8]) -> &[u8]
    ensures { result.now ≡ host_and_path text.now }
{
    before(b'?', before(b'#', behind_scheme(text)))
}

/// The query of a URI.
fn query_of(text: &[u8]) -> &[u8]
    ensures { result.now ≡ query_of text.now }
{
    behind(b'?', before(b'#', behind_scheme(text)))
}

/// The path of a URI.
fn path_of(text: &[u8]) -> &[u8]
    ensures { result.now ≡ path_of text.now }
{
    without_slash(behind(b'/', host_and_path(text)))
}

/// Whether a text is a URI of the web (RFC 3986), with a host and a plain query: no `;` in it, and no `%` in its names.
pub fn is_uri(text: &[u8]) -> bool
    ensures { result ≡ is_uri text.now }
{
    begins_link(text) && is_written(text) && has_host(text) && is_plain(query_of(text))
}

/// The elements of a path, from its key on, and of a query.
fn entries_said(path: &[u8], query: &[u8], year: Year) -> Result<Elements, MessageFault>
    ensures { heard result ≡ entries_said year (path_entries (segments path.now) ++ query_entries (parameters query.now)) }
{
    let mut pairs = Pairs::new();
    if !put_path(&mut pairs, path) || !put_query(&mut pairs, query) {
        return Err(MessageFault::Elements(ElementFault::TooLong));
    }
    match Elements::of_pairs(pairs.as_slice(), year) {
        Ok(elements) => Ok(elements),
        Err(fault) => Err(MessageFault::Elements(fault)),
    }
}

/// The elements of a Digital Link.
pub(crate) fn link_said(text: &[u8], year: Year) -> Result<Elements, MessageFault>
    ensures { heard result ≡ link_said year text.now }
{
    if !is_uri(text) {
        return Err(MessageFault::Kind);
    }
    match key_part(path_of(text)) {
        Some(path) => entries_said(path, query_of(text), year),
        None => Err(MessageFault::Kind),
    }
}
