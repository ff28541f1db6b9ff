//! A client, the proxy and an origin over loopback, in one thread.

use hx_allow::Table;
use hx_store::ListShelf;
use proxy_server::{Limits, ListenAt, LiveSockets, Server};
use std::alloc::Global;
use std::io::{ErrorKind, Read, Write};
use std::net::{Net, OpenStream, SocketAddr, TcpListener, TcpStream};
use std::process::Abort;
use std::rt::Clock;
use std::test::Fail;
use std::time::Duration;

const ANSWER: &[u8] =
    b"HTTP/1.1 200 OK\r\nCache-Control: max-age=600\r\nContent-Length: 2\r\n\r\nhi";

fn table_for(alloc: Global, origin: SocketAddr) -> Result<Table, Fail> {
    let text = format!(in alloc;
        "version = 1\nname = \"edge\"\ncapacity = 2\nmax_body = 1000\nmax_stored = 1000\n[[line]]\nhost = \"*\"\nmethods = [\"GET\"]\npath = \"/\"\norigin = \"{origin}\"\n"
    )?;
    Ok(Table::read(alloc, text.as_bytes()).ok().ok_or("a table")?)
}

/// A server before that origin, which records nothing, and its address. An end may be silent for so many seconds.
fn server_before<'a>(
    rt: &'a HostRuntime,
    origin: SocketAddr,
    silence: u64,
) -> Result<(Server<'a, ListShelf, HostRuntime, Vec<u8>>, SocketAddr), Fail> {
    let alloc = rt.alloc();
    let any = "127.0.0.1:0"
        .parse::<SocketAddr>()
        .ok()
        .ok_or("an address")?;
    let config = table_for(alloc, origin)?;
    let limits = Limits {
        connections: 1000,
        origin_connections: 1000,
        origin_probe: true,
        client_timeout: silence.saturating_mul(1000),
        request_timeout: 30_000,
        abandon_timeout: 5000,
        connect_timeout: 5000,
        origin_timeout: silence.saturating_mul(1000),
        exchange_timeout: 300_000,
        content: 1_000_000,
    };
    let sockets = LiveSockets::listen(rt, alloc, ListenAt::Address(any), limits)?;
    let address = sockets.address();
    let shelf = ListShelf::new(alloc, config.capacity());
    Ok((Server::new(alloc, config, shelf, sockets, None), address))
}

fn contains(text: &[u8], part: &[u8]) -> bool {
    text.windows(part.len().max(1)).any(|w| w == part)
}

/// Reads a request and answers it.
fn answer(stream: TcpStream) -> Result<(), Fail> {
    let mut stream = stream;
    let mut buf = [0u8; 4096];
    stream.set_read_timeout(Some(Duration::from_secs(5)))?;
    let n = stream.read(&mut buf)?;
    if n == 0 {
        return Err(Fail::from("no request"));
    }
    stream.write_all(ANSWER)?;
    Ok(())
}

/// It is lent to what uses it: each `?` beside an owned one would let go of all that it holds.
type Served<'a> = Server<'a, ListShelf, HostRuntime, Vec<u8>>;

/// A client asks, and gets an answer with these words. How often the origin was asked.
fn ask_once<R: Abort + Clock + Net>(
    rt: &R,
    server: &mut Served<'_>,
    address: SocketAddr,
    origin: &TcpListener,
    wanted: &[u8],
) -> Result<u64, Fail> {
    let mut asked = 0u64;
    let mut client = TcpStream::connect(rt, address)?;
    client.write_all(b"GET /a HTTP/1.1\r\nHost: h\r\n\r\n")?;
    client.set_nonblocking(true)?;
    let mut buf = [0u8; 4096];
    let mut got = 0usize;
    for _ in 0..1000u32 {
        assert!(rt; server.wait_and_serve_turn(rt).is_ok());
        if let Ok((stream, _)) = origin.accept() {
            asked = asked.saturating_add(1);
            answer(stream)?;
        }
        match client.read(&mut buf) {
            Ok(n) => {
                got = n;
                break;
            }
            Err(e) => assert!(rt; e.kind() == ErrorKind::WouldBlock),
        }
    }
    assert!(rt; got <= 4096 && contains(&buf[..got], wanted));
    Ok(asked)
}

/// Two ask, one after the other, and the origin is asked once.
fn ask_twice<R: Abort + Clock + Net>(
    rt: &R,
    server: &mut Served<'_>,
    address: SocketAddr,
    origin: &TcpListener,
) -> Result<(), Fail> {
    let first = ask_once(rt, server, address, origin, b"fwd=uri-miss;ttl=600;stored")?;
    let second = ask_once(rt, server, address, origin, b"edge;hit;ttl=")?;
    assert!(rt; first.saturating_add(second) == 1);
    Ok(())
}

/// The second client's request is answered by what the first one's brought, and the origin is asked once.
#[test]
fn loopback_hit(rt: HostRuntime) -> Result<(), Fail> {
    let origin = TcpListener::bind(&rt, "127.0.0.1:0")?;
    origin.set_nonblocking(true)?;
    let (mut server, address) = server_before(&rt, origin.local_addr()?, 60)?;
    ask_twice(&rt, &mut server, address, &origin)
}

/// The origin never answers one client, and another one sends nothing.
fn fall_silent<R: Abort + Clock + Net>(
    rt: &R,
    server: &mut Served<'_>,
    address: SocketAddr,
) -> Result<(), Fail> {
    let mut idle = TcpStream::connect(rt, address)?;
    let mut client = TcpStream::connect(rt, address)?;
    client.write_all(b"GET /a HTTP/1.1\r\nHost: h\r\n\r\n")?;
    client.set_nonblocking(true)?;
    let mut buf = [0u8; 4096];
    let mut got = 0usize;
    for _ in 0..20u32 {
        assert!(rt; server.wait_and_serve_turn(rt).is_ok());
        if let Ok(n) = client.read(&mut buf) {
            got = n;
            break;
        }
    }
    assert!(rt; got <= 4096 && contains(&buf[..got], b"HTTP/1.1 504 "));
    assert!(rt; contains(&buf[..got], b"Refusal: origin timed-out;fwd=uri-miss\r\n"));
    for _ in 0..4u32 {
        assert!(rt; server.wait_and_serve_turn(rt).is_ok());
    }
    idle.set_read_timeout(Some(Duration::from_secs(5)))?;
    assert!(rt; idle.read(&mut buf)? == 0);
    Ok(())
}

/// An origin that never answers has timed out after its silence, and a client that sends nothing is closed after its
/// own.
#[test]
fn silent_ends_are_released(rt: HostRuntime) -> Result<(), Fail> {
    let origin = TcpListener::bind(&rt, "127.0.0.1:0")?;
    let (mut server, address) = server_before(&rt, origin.local_addr()?, 1)?;
    fall_silent(&rt, &mut server, address)
}
