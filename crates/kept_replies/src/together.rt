//! Replies whose bytes stand together in one buffer. A buffer for each would take some 40 bytes more.

ghost use Rattle.std.specs.Prelude.{◌≡◌};

use crate::reply::Reply;
use mc_base::NoMemory;
use std::alloc::AllocError;
use std::collections::VecDeque;
use std::rc::Rc;

/// How many replies share a buffer. Beside their bytes it takes some 64: a count, its place and length, and two
/// headers; so one for each reply.
const TOGETHER: usize = 64;

/// Where the last replies, as many as share a buffer, have buffers of their own, puts their bytes into one. What is
/// kept stays as it is, after an `Err` too.
pub(crate) fn put_together(replies: &mut VecDeque<Reply>) -> Result<(), NoMemory>
    ensures { replies.new.items ≡ replies.old.items }
{
    let Some(first) = replies.len().checked_sub(TOGETHER) else {
        return Ok(());
    };
    if !is_own_at(replies, first) {
        return Ok(());
    }
    let alloc = *replies.allocator();
    let block = Rc::new(alloc, bytes_from(replies, first)?)?;
    let mut start = 0;
    for at in first..replies.len() {
        start = share_at(replies, at, &block, start)?;
    }
    Ok(())
}

/// Has the bytes of the reply at a place stand in this buffer from this place on, if they do. Where they would end there.
fn share_at(
    replies: &mut VecDeque<Reply>,
    at: usize,
    block: &Rc<Vec<u8>>,
    start: usize,
) -> Result<usize, AllocError>
    ensures { replies.new.items ≡ replies.old.items }
{
    match replies.get_mut(at) {
        Some(reply) => reply.share(block, start),
        None => Ok(start),
    }
}

fn is_own_at(replies: &VecDeque<Reply>, at: usize) -> bool {
    match replies.get(at) {
        Some(reply) => reply.is_own(),
        None => false,
    }
}

/// The bytes of the replies from a place on, one behind the other, as far as two bytes tell where each begins.
fn bytes_from(replies: &VecDeque<Reply>, first: usize) -> Result<Vec<u8>, AllocError> {
    let size = size_from(replies, first);
    let mut block = Vec::with_capacity(*replies.allocator(), size)?;
    for at in first..replies.len() {
        let Some(reply) = replies.get(at) else {
            break;
        };
        let bytes = reply.bytes();
        if bytes.len() > size.saturating_sub(block.len()) {
            break;
        }
        block.extend_from_slice(bytes)?;
    }
    Ok(block)
}

/// How many bytes they are.
fn size_from(replies: &VecDeque<Reply>, first: usize) -> usize {
    let mut size = 0usize;
    for at in first..replies.len() {
        let Some(reply) = replies.get(at) else {
            break;
        };
        let more = size.saturating_add(reply.bytes().len());
        if more > u16::MAX as usize {
            break;
        }
        size = more;
    }
    size
}
