//! Clients that connect over sockets.

use crate::expect::{Runtime, expect_bytes};
use std::io::{Read, Write};
use std::net::{Net, TcpListener, TcpStream};

pub(crate) fn loopback_listener(
    rt: &(impl Runtime + Net<Listener = TcpListener, Stream = TcpStream>),
) -> TcpListener {
    TcpListener::bind(rt, "127.0.0.1:0").expect(rt, "a listener")
}

pub(crate) fn client_of(
    rt: &(impl Runtime + Net<Listener = TcpListener, Stream = TcpStream>),
    listener: &TcpListener,
    bytes: &[u8],
) -> TcpStream {
    let address = listener.local_addr().expect(rt, "an address");
    let mut client = TcpStream::connect(rt, address).expect(rt, "a client");
    client.write_all(bytes).expect(rt, "a request that is sent");
    client
}

/// The client must get this text, and then the end of the connection.
pub(crate) fn expect_reply(rt: &impl Runtime, mut client: TcpStream, want: &str) {
    let mut returned = Vec::new(rt.alloc());
    client.read_to_end(&mut returned).expect(rt, "a reply");
    expect_bytes(rt, &returned, want.as_bytes(), "a request over a socket");
}
