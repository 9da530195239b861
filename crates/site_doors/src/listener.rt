//! Listening.

use std::io;
use std::io::ErrorKind;
use std::net::{Net, TcpListener, ToSocketAddrs};
use std::os::fd::OwnedFd;

/// A listener at an address. As many sockets that no door took yet may wait there as the system allows: where many come at once none
/// is passed over, to try again a second later.
pub fn listener_at<R: Net>(net: &R, address: &str) -> io::Result<TcpListener> {
    let mut last = io::Error::from(ErrorKind::InvalidInput);
    'places: for place in address.to_socket_addrs(net)? {
        match mio::net::TcpListener::bind(net, place) {
            Ok(listener) => return Ok(TcpListener::from(OwnedFd::from(listener))),
            Err(error) => last = error,
        }
    }
    Err(last)
}
