//! The operator's table, through its calls. What its lines say is a matter of cases.

use hx_allow::Table;
use hx_policy::Policy;
use std::alloc::Global;
use std::net::{Ipv4Addr, SocketAddrV4};
use std::test::Fail;

fn config_of(alloc: Global, table: &str) -> Result<Table, Fail> {
    Ok(Table::read(alloc, table.as_bytes()).ok().ok_or("a table")?)
}

/// A line without cache, one that says that it has one, and one that says nothing.
const LINES: &str = "version = 2
name = \"edge\"
capacity = 2
max_body = 1000
max_stored = 10

[[line]]
host = \"*\"
methods = [\"*\"]
path = \"/live\"
origin = \"127.0.0.1:8081\"
cache = \"off\"

[[line]]
host = \"*\"
methods = [\"GET\"]
path = \"/shop\"
origin = \"127.0.0.1:8081\"
cache = \"on\"

[[line]]
host = \"*\"
methods = [\"GET\"]
path = \"/\"
origin = \"127.0.0.1:8081\"
";

#[test]
fn each_line_says_whether_it_has_a_cache(rt: HostRuntime) -> Result<(), Fail> {
    let config = config_of(rt.alloc(), LINES)?;
    assert!(rt; !config.line_policy(1).caches);
    assert!(rt; config.line_policy(2) == Policy::plain(true));
    assert!(rt; config.line_policy(3) == Policy::plain(true));
    assert!(rt; config.line_policy(4) == Policy::plain(false));
    let address = SocketAddrV4::new(Ipv4Addr::LOCALHOST, 8081);
    assert!(rt; config.origin_address(2) == Some(address));
    assert!(rt; config.origin_address(4) == None);
    Ok(())
}

/// A line for everything in front of a denial, one for another method, and one that the first takes in part alone.
const SHADOWED: &str = "version = 1
name = \"edge\"
capacity = 2
max_body = 1000
max_stored = 10

[[line]]
host = \"*\"
methods = [\"GET\", \"HEAD\"]
path = \"/\"
origin = \"127.0.0.1:8081\"

[[line]]
host = \"*\"
methods = [\"GET\"]
path = \"/admin\"
origin = \"deny\"

[[line]]
host = \"*\"
methods = [\"GET\", \"POST\"]
path = \"/admin\"
origin = \"deny\"

[[line]]
host = \"shop.example\"
methods = [\"POST\"]
path = \"/admin/users\"
origin = \"127.0.0.1:8082\"
";

#[test]
fn lines_that_are_never_reached_are_named(rt: HostRuntime) -> Result<(), Fail> {
    let config = config_of(rt.alloc(), SHADOWED)?;
    assert!(rt; config.first_line_that_covers_line(1) == None);
    assert!(rt; config.first_line_that_covers_line(2) == Some(1));
    assert!(rt; config.first_line_that_covers_line(3) == None);
    assert!(rt; config.first_line_that_covers_line(4) == Some(3));
    assert!(rt; config.first_line_that_covers_line(5) == None);
    assert!(rt; config.first_line_that_covers_line(0) == None);
    Ok(())
}
