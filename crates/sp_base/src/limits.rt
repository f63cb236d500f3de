//! Limits and numbers that several crates speak of.

/// The greatest port (RFC 9293, section 3.1).
pub const GREATEST_PORT: u16 = 65_535;

/// The port of HTTP where none is written (RFC 9110, section 4.2.1).
pub const HTTP_PORT: u16 = 80;

/// The most bytes that are rendered: of what a template writes, and of a representation.
pub const MOST_RENDERED_BYTES: usize = 4_194_304;

/// The most bytes of a media type that is sent.
pub const LONGEST_MEDIA_TYPE: usize = 100;
