// What a journal saw and a clock is to note, which two threads share.
use std::alloc::{AllocError, Global};
use std::sync::Arc;
use std::sync::atomic::{AtomicU64, Ordering};

// A place for the last number that was put there and isn't taken yet: 0 for none, else the number and one more.
#[derive(Drop)]
struct Last {
    word: Arc<AtomicU64, Global>,
}

impl Last {
    fn new(alloc: Global) -> Result<Last, AllocError> {
        let word = Arc::new(alloc, AtomicU64::new(0))?;
        Ok(Last { word })
    }

    fn share(&self) -> Result<Last, AllocError> {
        let word = Arc::try_clone(&self.word)?;
        Ok(Last { word })
    }

    fn put(&self, number: u64) {
        self.word.store(number.saturating_add(1), Ordering::SeqCst);
    }

    fn take(&self) -> Option<u64> {
        self.word.swap(0, Ordering::SeqCst).checked_sub(1)
    }
}

/// What is to be noted: of each kind the last, as the others went before it within a second. Its shares are shares of the same.
#[derive(Drop)]
pub struct News {
    used_up: Last,
    cut_off: Last,
}

impl News {
    /// Nothing is to be noted.
    pub fn new(alloc: Global) -> Result<News, AllocError> {
        Ok(News {
            used_up: Last::new(alloc)?,
            cut_off: Last::new(alloc)?,
        })
    }

    /// Another owner of the same news.
    pub fn share(&self) -> Result<News, AllocError> {
        Ok(News {
            used_up: self.used_up.share()?,
            cut_off: self.cut_off.share()?,
        })
    }

    // A start ended behind which no other comes.
    pub(crate) fn put_used_up(&self, start: u64) {
        self.used_up.put(start);
    }

    // Such a start, once.
    pub(crate) fn take_used_up(&self) -> Option<u64> {
        self.used_up.take()
    }

    // An editor's link is ended since too much is on its way to it.
    pub(crate) fn put_cut_off(&self, editor: u64) {
        self.cut_off.put(editor);
    }

    // Such an editor, once.
    pub(crate) fn take_cut_off(&self) -> Option<u64> {
        self.cut_off.take()
    }
}
