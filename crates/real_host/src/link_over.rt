// Whether a link is over, which two threads share.
use std::alloc::{AllocError, Global};
use std::sync::Arc;
use std::sync::atomic::{AtomicBool, Ordering};

/// Says whether a link is over. Its shares are shares of the same word, which any thread may read.
#[derive(Drop)]
pub struct LinkOver {
    is_over: Arc<AtomicBool, Global>,
}

impl LinkOver {
    /// Of a link that isn't over.
    pub fn new(alloc: Global) -> Result<LinkOver, AllocError> {
        let is_over = Arc::new(alloc, AtomicBool::new(false))?;
        Ok(LinkOver { is_over })
    }

    /// Another owner of the same word.
    pub fn share(&self) -> Result<LinkOver, AllocError> {
        let is_over = Arc::try_clone(&self.is_over)?;
        Ok(LinkOver { is_over })
    }

    /// The link is over.
    pub(crate) fn tell(&self) {
        self.is_over.store(true, Ordering::SeqCst);
    }

    /// Whether the link is over. Once it is, it stays so.
    pub(crate) fn is_over(&self) -> bool {
        self.is_over.load(Ordering::SeqCst)
    }
}
