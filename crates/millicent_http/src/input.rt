//! An operator's input.

ghost use Rattle.std.specs.Prelude.{◌≡◌, ◌^◌, ◌<◌, ◌+◌, ℕ, List, length, take, Some, IsTrue, IfSome, IfOk, IfErr, OnErr};
ghost use Rattle.mc_outside.specs.LinkView.{after_recv, Failed};
ghost use Rattle.millicent_http.specs.Inputs.{IsInput, TakesInput, InputFailed, Receives};

use mc_base::NoMemory;
use mc_outside::{Link, LinkFault};
use std::alloc::Global;

/// Why an input was not read.
#[derive(Clone, Copy, Drop)]
pub enum InputFault {
    NoMemory,
    /// A call of the link failed.
    Link,
}

/// The input of a command that takes at most so many bytes of the next link; nothing where it takes no link.
pub fn input_of<K: Link>(
    alloc: Global,
    k: &mut K,
    most: Option<usize>,
) -> Result<Vec<u8>, InputFault>
    requires few { IfSome most (λ n. n < 2 ^ 32) }
    ensures moved { K.link_moved k.old k.new }
    ensures read { IfOk result
        (λ bytes. TakesInput most (K.link k.old) bytes.items (K.link k.new)) }
    ensures fault { IfErr result (λ fault. InputFailed fault most (K.link k.old) (K.link k.new)) }
{
    match most {
        Some(most) => read_input(alloc, k, most),
        None => Ok(Vec::new(alloc)),
    }
}

/// Reads what the next link brings, up to its end or to one byte more than `most`. All memory is taken before
/// the link is.
fn read_input<K: Link>(alloc: Global, k: &mut K, most: usize) -> Result<Vec<u8>, InputFault>
    requires few { most < 2 ^ 32 }
    ensures moved { K.link_moved k.old k.new }
    ensures read { IfOk result (λ bytes. IsInput most (K.link k.old) bytes.items (K.link k.new)) }
    ensures fault { IfErr result
        (λ fault. InputFailed fault (Some most) (K.link k.old) (K.link k.new)) }
{
    let mut bytes = Vec::new(alloc);
    match bytes.resize(most + 1, 0) {
        Ok(()) => (),
        Err(_) => return Err(InputFault::NoMemory),
    }
    match k.next_link() {
        Ok(true) => (),
        Ok(false) => {
            bytes.clear();
            return Ok(bytes);
        }
        Err(LinkFault) => return Err(InputFault::Link),
    }
    match receive(k, &mut bytes) {
        Ok(len) => {
            bytes.truncate(len);
            Ok(bytes)
        }
        Err(LinkFault) => Err(InputFault::Link),
    }
}

/// Receives bytes of the standing link until the buffer is full or the link ends, and answers how many. After an `Err` the
/// bytes are unspecified.
pub fn receive<K: Link>(k: &mut K, buf: &mut [u8]) -> Result<usize, LinkFault>
    requires stands { IsTrue (K.link k.old).stands }
    ensures moved { K.link_moved k.old k.new }
    ensures len { length buf.new ≡ length buf.old }
    ensures received { IfOk result
        (λ n. Receives (length buf.old) (K.link k.old) n (take n buf.new) (K.link k.new)) }
    ensures failed { OnErr result ((got : List ℕ)
        × Failed (after_recv got (K.link k.old)) (K.link k.new)) }
{
    let mut len = 0;
    while len < buf.len() {
        match k.recv(&mut buf[len..]) {
            Ok(0) => return Ok(len),
            Ok(n) => len += n,
            Err(LinkFault) => return Err(LinkFault),
        }
    }
    Ok(len)
}
