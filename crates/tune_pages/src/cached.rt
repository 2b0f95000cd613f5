// Images of pages that are kept in memory.
ghost use Rattle.std.specs.Prelude.{◌≡◌, ◌<◌, ◌≤◌, [], true, length, IfNone, IfSome};
ghost use Rattle.tune_journal.specs.ChangeList.{changed_page};
ghost use Rattle.tune_pages.specs.Inside.Cached.{KeepsOnly, KeepsOneMore, HasImage};
ghost use Rattle.tune_pages.specs.Inside.Cached.{HasLinkImage};
ghost use Rattle.tune_pages.specs.Inside.Cached.{Replaces, ReplacesAll};

use crate::link::add_link;
use lru::LruCache;
use std::alloc::Global;
use std::marker::Model;
use std::mem;
use std::num::NonZeroUsize;
use tune_journal::{Changes, PageImage};

// How many images are kept at most.
const MOST: usize = 1024;

// How many pages are remembered that were asked about.
const REMEMBERED: usize = 1024;

// Images of pages, of those that were asked for last. Contracts see a list of pages with their
// images, the one that was asked for last first.
#[derive(Drop)]
pub(crate) struct CachedImages {
    alloc: Global,
    // none before the first image is kept, so that making it takes no memory
    cache: Option<LruCache<u32, Box<PageImage>>>,
    // pages that were asked about, the last one of each remainder; none before the first
    asked: Vec<u32>,
}

impl Model for CachedImages {
    ghost use Rattle.std.specs.Prelude.{List};
    ghost use Rattle.tune_pages.specs.Inside.Cached.{CachedImage, cached_images, HasRoom};

    ghost Value = { List CachedImage };

    ghost view = { λ c. cached_images c.cache };

    ghost invariant = { λ c. HasRoom c.cache };
}

impl CachedImages {
    // No images. It takes no memory.
    pub(crate) fn new(alloc: Global) -> CachedImages
        ensures { result ≡ [] }
    {
        CachedImages {
            alloc,
            cache: None,
            asked: Vec::new(alloc),
        }
    }

    // Whether this was asked of the page before, and since then of no other page with the same
    // remainder. Where there is no memory to remember it, it was not.
    pub(crate) fn is_asked_again(&mut self, page: u32) -> bool
        ensures { self.new ≡ self.old }
    {
        if self.asked.is_empty() {
            self.asked = none_asked(self.alloc);
        }
        match self.asked.get_mut(page as usize % REMEMBERED) {
            Some(last) => mem::replace(last, page) == page,
            None => false,
        }
    }

    // How many images are kept.
    pub(crate) fn len(&self) -> usize
        ensures len { result ≡ length self.now }
        ensures most { result ≤ 1024 }
    {
        match &self.cache {
            Some(cache) => cache.len(),
            None => 0,
        }
    }

    // Puts the image of a page in the place of `image`, where it is kept.
    pub(crate) fn read(&mut self, page: u32, image: &mut PageImage) -> bool
        ensures found { result ≡ true → HasImage self.old page image.new.bytes }
        ensures only { KeepsOnly self.old self.new }
    {
        if let Some(cache) = &mut self.cache {
            return read_in(cache, page, image);
        }
        false
    }

    // Adds the bytes that count of the image that is kept of a page of a chain, and gives the page
    // behind it. `None`, with the bytes as they were, where no image of it is kept, or one that
    // can be of no page of a chain, and where there is no memory for more bytes.
    pub(crate) fn add_link(&mut self, page: u32, bytes: &mut Vec<u8>) -> Option<u32>
        ensures link { IfSome result (λ next.
            HasLinkImage self.old page next bytes.old.items bytes.new.items) }
        ensures none { IfNone result (bytes.new.items ≡ bytes.old.items) }
        ensures only { KeepsOnly self.old self.new }
    {
        if let Some(cache) = &mut self.cache {
            return add_link_in(cache, page, bytes);
        }
        None
    }

    // Keeps the image of a page where that is wanted and there is memory for it. Where 1,024 are
    // kept, the one that was asked for longest ago goes.
    pub(crate) fn keep(&mut self, page: u32, image: &PageImage, wanted: bool)
        ensures { KeepsOneMore self.old self.new page image.now.bytes }
    {
        if !wanted {
            return;
        }
        self.begin();
        if let Some(cache) = &mut self.cache {
            return keep_in(cache, self.alloc, page, image);
        }
    }

    // Puts the new images of pages that change in the place of those that are kept of them. It
    // takes no memory.
    pub(crate) fn replace_all(&mut self, changes: &Changes)
        ensures { ReplacesAll self.old self.new changes.now }
    {
        if let Some(cache) = &mut self.cache {
            return replace_all_in(cache, changes);
        }
    }

    // Makes the cache, where there is memory for it.
    fn begin(&mut self)
        ensures { self.new ≡ self.old }
    {
        if self.cache.is_some() {
            return;
        }
        self.cache = empty_cache(self.alloc);
    }
}

// That no page was asked about but the root; nothing where there is no memory for it.
fn none_asked(alloc: Global) -> Vec<u32> {
    match vec![in alloc; 0; REMEMBERED] {
        Ok(asked) => asked,
        Err(_) => Vec::new(alloc),
    }
}

// An empty cache, where there is memory for it.
fn empty_cache(alloc: Global) -> Option<LruCache<u32, Box<PageImage>>>
    ensures { IfSome result (λ cache. (cache.entries ≡ []) × (cache.cap ≡ 1024)) }
{
    let most = NonZeroUsize::new(MOST)?;
    LruCache::new(alloc, most).ok()
}

// Puts the image of a page in the place of `image`, where it is kept.
fn read_in(cache: &mut LruCache<u32, Box<PageImage>>, page: u32, image: &mut PageImage) -> bool
    ensures found { result ≡ true → HasImage cache.old.entries page image.new.bytes }
    ensures only { KeepsOnly cache.old.entries cache.new.entries }
    ensures cap { cache.new.cap ≡ cache.old.cap }
{
    match cache.get(&page) {
        Some(kept) => {
            *image = **kept;
            true
        }
        None => false,
    }
}

// Adds the bytes that count of the image that is kept of a page of a chain.
fn add_link_in(
    cache: &mut LruCache<u32, Box<PageImage>>,
    page: u32,
    bytes: &mut Vec<u8>,
) -> Option<u32>
    ensures link { IfSome result (λ next.
        HasLinkImage cache.old.entries page next bytes.old.items bytes.new.items) }
    ensures none { IfNone result (bytes.new.items ≡ bytes.old.items) }
    ensures only { KeepsOnly cache.old.entries cache.new.entries }
    ensures cap { cache.new.cap ≡ cache.old.cap }
{
    match cache.get(&page) {
        Some(kept) => add_link(&kept.bytes, bytes),
        None => None,
    }
}

// Keeps an image; where there is no memory it is not kept.
fn keep_in(cache: &mut LruCache<u32, Box<PageImage>>, alloc: Global, page: u32, image: &PageImage)
    ensures only { KeepsOneMore cache.old.entries cache.new.entries page image.now.bytes }
    ensures cap { cache.new.cap ≡ cache.old.cap }
{
    if let Some(copy) = copy_of(cache, alloc, image) {
        let _ = cache.put(page, copy);
    }
}

// A box with this image: where 1,024 are kept, that of the one that was asked for longest ago,
// and else a new one, where there is memory for it.
fn copy_of(
    cache: &mut LruCache<u32, Box<PageImage>>,
    alloc: Global,
    image: &PageImage,
) -> Option<Box<PageImage>>
    ensures copy { IfSome result (λ copy. copy.value.bytes ≡ image.now.bytes) }
    ensures only { KeepsOnly cache.old.entries cache.new.entries }
    ensures cap { cache.new.cap ≡ cache.old.cap }
{
    if cache.len() < MOST {
        return boxed(alloc, image);
    }
    let (_, mut copy) = cache.pop_lru()?;
    *copy = *image;
    Some(copy)
}

// A new box with this image, where there is memory for it. It is apart, so that no room for an
// image is cleared on the way of one that goes into a box that is there.
#[inline(never)]
fn boxed(alloc: Global, image: &PageImage) -> Option<Box<PageImage>>
    ensures { IfSome result (λ copy. copy.value.bytes ≡ image.now.bytes) }
{
    Box::new(alloc, *image).ok()
}

// Puts the new images of pages that change in the place of those that are kept of them.
fn replace_all_in(cache: &mut LruCache<u32, Box<PageImage>>, changes: &Changes)
    ensures only { ReplacesAll cache.old.entries cache.new.entries changes.now }
    ensures cap { cache.new.cap ≡ cache.old.cap }
{
    for place in 0..changes.len() {
        replace_in(cache, changes, place);
    }
}

// Puts the new image of a page that changes in the place of the one that is kept of it, if any.
fn replace_in(cache: &mut LruCache<u32, Box<PageImage>>, changes: &Changes, place: usize)
    requires { place < length changes.now }
    ensures only { Replaces cache.old.entries cache.new.entries changes.now
        (changed_page changes.now place) }
    ensures cap { cache.new.cap ≡ cache.old.cap }
{
    // For the proof: its contract says that no page has two images.
    let _count = cache.len();
    let page = changes.page_at(place);
    if let Some(kept) = cache.get_mut(&page) {
        let _ = changes.read(page, kept);
    }
}
