//! Worked examples of answers to requests (RFC 9112): with ample memory each request has its answer.

use prom_serve::respond;
use std::alloc::Global;
use std::test::Fail;

const PAGE: &str = "# TYPE basic_counter counter\nbasic_counter 42\n\n";

const GRANTED: &str =
    "HTTP/1.1 200 OK\r\ncontent-type: text/plain\r\ncontent-length: 47\r\nconnection: close\r\n\r\n# TYPE basic_counter counter\nbasic_counter 42\n\n";

const ONLY_HEAD: &str =
    "HTTP/1.1 200 OK\r\ncontent-type: text/plain\r\ncontent-length: 47\r\nconnection: close\r\n\r\n";

const HEALTHY: &str =
    "HTTP/1.1 200 OK\r\ncontent-type: text/plain\r\ncontent-length: 2\r\nconnection: close\r\n\r\nOK";

const BAD: &str = "HTTP/1.1 400 Bad Request\r\ncontent-length: 0\r\nconnection: close\r\n\r\n";

const FORBIDDEN: &str = "HTTP/1.1 403 Forbidden\r\ncontent-length: 0\r\nconnection: close\r\n\r\n";

/// Whether the answer to some bytes is this text.
fn answers(alloc: Global, allowed: bool, head: &[u8], answer: &str) -> Result<bool, Fail> {
    let answered = respond(alloc, allowed, head, PAGE)?;
    Ok(answered.as_slice() == answer.as_bytes())
}

#[test]
fn requests_are_answered(rt: HostRuntime) -> Result<(), Fail> {
    let rows = [
        (true, "GET /metrics HTTP/1.1\r\nHost: a\r\n\r\n", GRANTED),
        (true, "GET /metrics HTTP/1.1\nHost: a\n\nmore", GRANTED),
        (true, "\r\nGET / HTTP/1.0\r\n\r\n", GRANTED),
        (true, "OPTIONS * HTTP/1.1\r\n\r\n", GRANTED),
        (true, "head /metrics HTTP/1.1\r\n\r\n", GRANTED),
        (true, "HEAD /metrics HTTP/1.1\r\n\r\n", ONLY_HEAD),
        (true, "GET http://a:9000/health?x HTTP/1.1\r\n\r\n", HEALTHY),
        (false, "GET /health HTTP/1.1\r\n\r\n", FORBIDDEN),
        (false, "GET /metrics HTTP/1.1\r\nHost: a\r\n", BAD),
        (true, "GET /metrics\r\n\r\n", BAD),
        (true, "GET /metrics HTTP/2.0\r\n\r\n", BAD),
        (true, "", BAD),
    ];
    for (allowed, head, answer) in rows {
        assert!(rt;
            answers(rt.alloc(), allowed, head.as_bytes(), answer)?,
            "{head}"
        );
    }
    Ok(())
}

/// A head whose target, of a slash and some bytes, is followed by as many fields as are asked for.
fn long_head(alloc: Global, target: usize, fields: usize) -> Result<String, Fail> {
    let mut head = String::from_str(alloc, "GET /")?;
    for _ in 0..target {
        head.push_str("x")?;
    }
    head.push_str(" HTTP/1.1\r\n")?;
    for _ in 0..fields {
        head.push_str("a: b\r\n")?;
    }
    head.push_str("\r\n")?;
    Ok(head)
}

#[test]
fn long_heads_are_answered(rt: HostRuntime) -> Result<(), Fail> {
    let alloc = rt.alloc();
    let rows = [
        (0, 128, GRANTED),
        (0, 129, BAD),
        (65_518, 0, GRANTED),
        (65_519, 0, BAD),
    ];
    for (target, fields, answer) in rows {
        let head = long_head(alloc, target, fields)?;
        assert!(rt; answers(alloc, true, head.as_bytes(), answer)?);
    }
    Ok(())
}
