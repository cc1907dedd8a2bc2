//! The cause of a single header's error.
use crate::err::{LenError, ip_auth};
use std::io;

/// The cause of a single header's error: the value inside the error.
#[derive(Clone, Copy, Debug)]
pub enum Source<'a> {
    /// The reader failed.
    Io(&'a io::Error),
    /// There were too few bytes.
    Len(&'a LenError),
    /// The bytes are not a valid authentication header.
    IpAuth(&'a ip_auth::HeaderError),
}
