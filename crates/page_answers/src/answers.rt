//! The bytes of an answer.

ghost use Rattle.std.specs.Prelude.{◌≡◌, List, ℕ, string_bytes, IfOk, IsTrue};
ghost use Rattle.page_answers.specs.Answers.{phrase, refusal_text, granted_text, shown_body, IsAnswer, AnswersAreDetermined};
ghost use Rattle.page_answers.specs.Asked.{asked_text, asks_page};

use crate::heads::head_of;
use crate::paths::{is_same, path};
use http::StatusCode;
use metrics_core::Memory;
use std::alloc::Global;

/// What a request is answered with.
#[derive(Drop)]
pub enum Asked {
    /// A refusal.
    Refused { status: StatusCode },
    /// That the exporter is up.
    Health { only_head: bool },
    /// The page.
    Page { only_head: bool },
}

/// What bytes that were read of a peer are answered with.
pub fn asked_by(allowed: bool, head: &[u8]) -> Asked
    ensures shown { IsTrue (asks_page result) → IsTrue allowed }
    ensures answer { (page : List ℕ) → IsAnswer allowed head.now page (asked_text result page) }
{
    let Some((method, target)) = head_of(head) else {
        return Asked::Refused {
            status: StatusCode::BAD_REQUEST,
        };
    };
    if !allowed {
        return Asked::Refused {
            status: StatusCode::FORBIDDEN,
        };
    }
    let only_head = is_same(method, b"HEAD");
    if is_same(path(target), b"/health") {
        Asked::Health { only_head }
    } else {
        Asked::Page { only_head }
    }
}

/// The bytes of the answer.
pub fn answer_of(alloc: Global, asked: &Asked, page: &[u8]) -> Result<Vec<u8>, Memory>
    ensures { IfOk result (λ answer. answer.items ≡ asked_text asked.now page.now) }
{
    match asked {
        Asked::Refused { status } => refusal(alloc, *status),
        Asked::Health { only_head } => granted(alloc, *only_head, b"OK"),
        Asked::Page { only_head } => granted(alloc, *only_head, page),
    }
}

/// The reason phrase of a status.
fn phrase_of(status: StatusCode) -> &'static str
    ensures { result.now ≡ phrase status }
{
    status.canonical_reason().unwrap_or("")
}

/// The answer of a refused request: its status, and no body.
fn refusal(alloc: Global, status: StatusCode) -> Result<Vec<u8>, Memory>
    ensures { IfOk result (λ text. text.items ≡ refusal_text status) }
{
    let code = status.as_u16();
    let phrase = phrase_of(status);
    let text = format!(in alloc;
        "HTTP/1.1 {code} {phrase}\r\ncontent-length: 0\r\nconnection: close\r\n\r\n"
    )?;
    Ok(text.into_bytes())
}

/// The body, unless only the head was asked for.
fn shown(only_head: bool, body: &[u8]) -> &[u8]
    ensures { result.now ≡ shown_body only_head body.now }
{
    if only_head { b"" } else { body }
}

/// The answer of a granted request: its head tells the length of the body, and the body follows unless only the head was
/// asked for.
fn granted(alloc: Global, only_head: bool, body: &[u8]) -> Result<Vec<u8>, Memory>
    ensures { IfOk result (λ text. text.items ≡ granted_text only_head body.now) }
{
    let code = StatusCode::OK.as_u16();
    let phrase = phrase_of(StatusCode::OK);
    let length = body.len();
    let head = format!(in alloc;
        "HTTP/1.1 {code} {phrase}\r\ncontent-type: text/plain\r\ncontent-length: {length}\r\nconnection: close\r\n\r\n"
    )?;
    let mut answer = head.into_bytes();
    answer.extend_from_slice(shown(only_head, body))?;
    Ok(answer)
}

/// The whole answer to a request, given the bytes that were read of it and the page. The status is 400 where the bytes don't
/// begin with a complete head (RFC 9112) of at most 65,536 bytes and 128 fields, 403 where the peer is not allowed, and
/// otherwise 200.
pub fn respond(alloc: Global, allowed: bool, head: &[u8], page: &str) -> Result<Vec<u8>, Memory>
    ensures { IfOk result (λ answer. IsAnswer allowed head.now page.now answer.items) }
{
    answer_of(alloc, &asked_by(allowed, head), page.as_bytes())
}

/// A law: no request has two answers.
pub fn answers_are_determined()
    ensures { AnswersAreDetermined }
{}
