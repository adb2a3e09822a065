ghost use Rattle.std.specs.Prelude.{◌≡◌, ◌⊎◌, [], None, Some, true, false, nat_eq, IfOk};
ghost use Rattle.std.specs.Map.{keys_of, remove_entry};
ghost use Rattle.std.specs.List.{IsDistinct};
ghost use Rattle.lru.specs.LruCache.{promoted};
ghost use Rattle.mb_cache.specs.Clean.{fronted};
ghost use Rattle.mb_cache.specs.Pages.{page_at};

use lru::LruCache;
use mb_edge::NoMemory;
use std::alloc::{AllocError, Global};
use std::marker::Model;
use std::num::NonZeroUsize;

/// The most clean pages that are kept.
const MOST: usize = 1024;

/// The bytes of a page. They stand by themselves on the heap, so that a page goes from hand to hand as a pointer.
#[derive(Drop)]
struct Page {
    bytes: Box<[u8; 512]>,
}

impl Model for Page {
    ghost use Rattle.std.specs.Prelude.{List, ℕ};

    ghost Value = { List ℕ };

    ghost view = { λ p. p.bytes.value };
}

impl Page {
    fn new(alloc: Global, bytes: &[u8; 512]) -> Result<Page, AllocError>
        ensures { IfOk result (λ page. page ≡ bytes.now) }
    {
        let bytes = Box::new(alloc, *bytes)?;
        Ok(Page { bytes })
    }

    fn bytes(&self) -> &[u8; 512]
        ensures { result.now ≡ self.now }
    {
        &self.bytes
    }

    fn write(&mut self, bytes: &[u8; 512])
        ensures { self.new ≡ bytes.now }
    {
        *self.bytes = *bytes;
    }
}

/// Pages that are as the disk holds them, each block once, at most 1,024. A contract sees the list, the most recently used
/// page first.
#[derive(Drop)]
pub(crate) struct CleanPages {
    pages: LruCache<u32, Page>,
    /// A page that was driven out or removed. The next one that comes takes its place on the heap.
    spare: Option<Page>,
}

impl Model for CleanPages {
    ghost use Rattle.std.specs.Prelude.{◌≡◌};
    ghost use Rattle.mb_cache.specs.Clean.{most_clean};
    ghost use Rattle.mb_cache.specs.Pages.{PageList};

    ghost Value = { PageList };

    ghost view = { λ c. c.pages.entries };

    ghost invariant = { λ c. c.pages.cap ≡ most_clean };
}

impl CleanPages {
    /// No page. The only error is want of memory.
    pub fn new(alloc: Global) -> Result<CleanPages, NoMemory>
        ensures { IfOk result (λ pages. pages ≡ []) }
    {
        let most = NonZeroUsize::new(MOST).unwrap();
        let pages = LruCache::sparse(alloc, most)?;
        Ok(CleanPages { pages, spare: None })
    }

    /// The bytes of a block's page, which then comes first. `true` exactly where it has one.
    pub fn read(&mut self, block: u32, bytes: &mut [u8; 512]) -> bool
        ensures found { result ≡ true → page_at self.old block ≡ Some bytes.new }
        ensures missed { result ≡ false → page_at self.old block ≡ None }
        ensures first { self.new ≡ promoted (nat_eq block) self.old }
    {
        match self.pages.get(&block) {
            Some(page) => {
                *bytes = *page.bytes();
                true
            }
            None => false,
        }
    }

    /// A page with these bytes, in the spare one's place where there is one.
    fn page_of(&mut self, bytes: &[u8; 512]) -> Result<Page, AllocError>
        ensures page { IfOk result (λ page. page ≡ bytes.now) }
        ensures same { self.new ≡ self.old }
    {
        match self.spare.take() {
            Some(mut page) => {
                page.write(bytes);
                Ok(page)
            }
            None => Page::new(*self.pages.allocator(), bytes),
        }
    }

    /// A page of a block that has none comes first, and the last one goes where there are 1,024; for want of memory all stay.
    pub fn put(&mut self, block: u32, bytes: &[u8; 512])
        requires { page_at self.old block ≡ None }
        ensures { (self.new ≡ fronted self.old block bytes.now) ⊎ (self.new ≡ self.old) }
    {
        let Ok(page) = self.page_of(bytes) else {
            return;
        };
        self.spare = match self.pages.push(block, page) {
            Ok(Some((_block, last))) => Some(last),
            Ok(None) => None,
            Err(refused) => Some(refused.value.1),
        };
    }

    /// The page of a block goes, where it has one; needs no memory.
    pub fn remove(&mut self, block: u32)
        ensures gone { self.new ≡ remove_entry (nat_eq block) self.old }
        ensures once { IsDistinct nat_eq (keys_of self.old) }
    {
        self.pages.len();
        if let Some((_block, page)) = self.pages.pop_entry(&block) {
            self.spare = Some(page);
        }
    }

    /// All pages go; needs no memory.
    pub fn clear(&mut self)
        ensures { self.new ≡ [] }
    {
        self.pages.clear();
    }
}
