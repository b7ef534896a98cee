//! Many requests in one stream: the same ones come, however it is cut.

use crate::fixtures::{add, add_bytes};
use std::alloc::Global;
use std::process::Abort;
use sv_message::{RawRequest, RequestReader};

/// Adds ten chunks of 99 bytes.
fn add_chunks(rt: &impl Abort, stream: &mut Vec<u8>) {
    for _ in 0..10 {
        add_bytes(rt, stream, b"63\r\n");
        add_bytes(rt, stream, &[b'x'; 99]);
        add_bytes(rt, stream, b"\r\n");
    }
}

/// Adds a request with a chunked body of 1,000 bytes, whose first bytes are its number.
fn add_request(rt: &impl Abort, stream: &mut Vec<u8>, number: &str) {
    add_bytes(
        rt,
        stream,
        b"POST /p HTTP/1.1\r\nHost: h\r\nTransfer-Encoding: chunked\r\n\r\na\r\n",
    );
    add_bytes(rt, stream, number.as_bytes());
    add_bytes(rt, stream, b"\r\n");
    add_chunks(rt, stream);
    add_bytes(rt, stream, b"0\r\nA: b\r\n\r\n");
}

/// The number of a request, of ten digits.
fn number_text(rt: &impl Abort, alloc: Global, number: u32) -> String {
    format!(in alloc; "{number:010}").expect(rt, "memory")
}

/// 200 requests.
fn pipeline(rt: &impl Abort, alloc: Global) -> Vec<u8> {
    let mut stream = Vec::new(alloc);
    for number in 0..200 {
        add_request(rt, &mut stream, &number_text(rt, alloc, number));
    }
    stream
}

/// The numbers of the 200.
fn all_numbers(rt: &impl Abort, alloc: Global) -> String {
    let mut all = String::new(alloc);
    for number in 0..200 {
        add(rt, &mut all, &number_text(rt, alloc, number));
    }
    all
}

/// The number of a request whose body is as long as it was sent.
fn number_of(raw: &RawRequest) -> &str {
    if raw.body.len() != 1_000 {
        return "another length";
    }
    str::from_utf8(&raw.body.as_slice()[..10]).unwrap_or("no digits")
}

/// Adds the number of the next request, if it is there, or that there is a fault. Whether more can be there.
fn tell_next(rt: &impl Abort, told: &mut String, reader: &mut RequestReader) -> bool {
    match reader.next() {
        Ok(Some(raw)) => {
            add(rt, told, number_of(&raw));
            true
        }
        Ok(None) => false,
        Err(_) => {
            add(rt, told, "a fault");
            false
        }
    }
}

/// Adds the numbers of the requests that are there after a piece.
fn tell_piece(rt: &impl Abort, told: &mut String, reader: &mut RequestReader, piece: &[u8]) {
    if reader.feed(piece).is_err() {
        add(rt, told, "a fault");
    }
    for _ in 0..201 {
        if !tell_next(rt, told, reader) {
            break;
        }
    }
}

/// The numbers of the requests of a stream in pieces of a size.
fn told_of(rt: &impl Abort, alloc: Global, stream: &[u8], size: usize) -> String {
    let mut told = String::new(alloc);
    let mut reader = RequestReader::new(alloc);
    for piece in stream.chunks(size.max(1)) {
        tell_piece(rt, &mut told, &mut reader, piece);
    }
    told
}

/// How long the pieces are.
static SIZES: [usize; 4] = [1, 7, 4_096, 1_048_576];

pub(super) fn two_hundred_chunked_bodies(rt: &impl Abort, alloc: Global, input: usize) -> bool {
    let Some(size) = SIZES.get(input) else {
        return false;
    };
    let told = told_of(rt, alloc, &pipeline(rt, alloc), *size);
    told.as_str() == all_numbers(rt, alloc).as_str()
}
