//! The places that are ready, in turn.
use sp_base::Mem;
use std::alloc::Global;
use std::collections::VecDeque;

/// The places that are ready, each once, in the order in which their turn comes.
#[derive(Drop)]
pub(crate) struct Ready {
    queue: VecDeque<u32>,
    // Whether each place is in the queue.
    queued: Vec<bool>,
}

impl Ready {
    /// Room for places below a number.
    pub fn new(alloc: Global, places: u32) -> Mem<Ready> {
        let places = places as usize;
        Ok(Ready {
            queue: VecDeque::with_capacity(alloc, places)?,
            queued: vec![in alloc; false; places]?,
        })
    }

    pub fn is_empty(&self) -> bool {
        self.queue.is_empty()
    }

    /// Puts a place at the end, where it isn't among them.
    pub fn push(&mut self, place: u32) -> Mem<()> {
        let Some(queued) = self.queued.get_mut(place as usize) else {
            return Ok(());
        };
        if !*queued {
            *queued = true;
            self.queue.push_back(place)?;
        }
        Ok(())
    }

    /// Takes all places of another, in their order, to the end.
    pub fn take_all(&mut self, other: &mut Ready) -> Mem<()> {
        for _ in 0..other.queue.len() {
            if let Some(place) = other.pop() {
                self.push(place)?;
            }
        }
        Ok(())
    }

    /// Takes the place whose turn it is.
    pub fn pop(&mut self) -> Option<u32> {
        let place = self.queue.pop_front()?;
        if let Some(queued) = self.queued.get_mut(place as usize) {
            *queued = false;
        }
        Some(place)
    }
}
