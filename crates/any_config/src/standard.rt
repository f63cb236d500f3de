//! The farm that is used where none is given.

/// The text of the standard farm: it serves `localhost`, keeps every page, and lets this machine invalidate.
pub const STANDARD_FARM: &str = r#"/farms { /site {
  /virtualhosts { "localhost" }
  /filter { /0001 { /type "allow" /url "*" } }
  /cache {
    /statfileslevel "0"
    /rules { /0000 { /glob "*" /type "allow" } }
    /invalidate { /0000 { /glob "*.html" /type "allow" } }
    /allowedClients { /0000 { /glob "127.0.0.1" /type "allow" } }
    /ignoreUrlParams { /0001 { /glob "utm" /type "allow" } }
  }
} }
"#;
