//! The descriptor that the program `node` has built in.

/// The built-in descriptor: the context `/shop` with each sample servlet, and a listener.
pub const BUILT_IN: &str = r#"[[context]]
path = "/shop"

[[context.servlet]]
name = "hello"
patterns = ["/hello"]

[[context.servlet]]
name = "count"
patterns = ["/count"]

[[context.servlet]]
name = "snoop"
patterns = ["/snoop", ""]

[[context.servlet]]
name = "login"
patterns = ["/login"]

[[context.servlet]]
name = "includer"
patterns = ["/inc"]

[[context.servlet]]
name = "forwarder"
patterns = ["/fwd"]

[[context.servlet]]
name = "faulty"
patterns = ["/faulty", "/oops"]

[[context.listener]]
name = "tally"
"#;
