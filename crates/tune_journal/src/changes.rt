// Pages that change.
ghost use Rattle.std.specs.Prelude.{◌≡◌, ◌≢◌, ◌<◌, ◌==◌, ℕ, List, [], length, map, replicate};
ghost use Rattle.std.specs.Prelude.{true, false, IsTrue, None, Some, IsSome, IsOk, OnOk, OnErr};
ghost use Rattle.std.specs.Prelude.{IfOk, IfErr, IfSome, All, option_map, vec_capacity};
ghost use Rattle.std.specs.Prelude.{◌+◌, ◌-◌, ◌≤◌, ◌++◌, take, drop};
ghost use Rattle.std.specs.List.Sorted.{IsStrictlyIncreasing};
ghost use Rattle.tune_journal.specs.ChangeList.{with_change, image_of, change_at, changed_page};
ghost use Rattle.tune_journal.specs.ChangeList.{padded_image};
ghost use Rattle.tune_journal.specs.Inside.ChangeOrder.{FoundAt, MissingAt};
ghost use Rattle.tune_journal.specs.Inside.ShortImages.{IsBlankFrom};
ghost use Rattle.tune_journal.specs.FileOffsets.{block_bytes};
ghost use Rattle.tune_journal.specs.declared.changes.Kept.TheVariants.{Start};

use std::alloc::{AllocError, Global};
use std::collections::VecDeque;
use std::marker::Model;
use std::slice;

/// The 4,096 bytes of a page.
#[derive(Clone, Copy, Drop)]
pub struct PageImage {
    /// The bytes, as they stand in the file.
    pub bytes: [u8; 4096],
}

impl PageImage {
    /// A page of zeros.
    pub fn blank() -> PageImage
        ensures { result.bytes ≡ replicate block_bytes 0 }
    {
        PageImage { bytes: [0; 4096] }
    }
}

// For how many changes room is taken at first.
const ROOM: usize = 24;

// How the image of a change is held: apart, so that a page among many others moves no images.
#[derive(Drop)]
enum Kept {
    // by so many first bytes, which stand from this place on behind those of others: the rest of
    // the image is zeros
    Start { from: usize, size: u16 },
    // at this place among the whole images
    Whole(usize),
}

// A page and what it changes to.
#[derive(Drop)]
struct ChangedPage {
    page: u32,
    kept: Kept,
}

// Where a page stands among the changes.
#[derive(Clone, Copy, Drop)]
struct PlaceOfPage {
    at: usize,
    // whether it was added just now
    is_new: bool,
}

/// The pages that a commit changes, each with its new image. Contracts see a list of (page, image)
/// by rising page.
#[derive(Drop)]
pub struct Changes {
    alloc: Global,
    // by rising page; a page at either end moves none of the others
    changed: VecDeque<ChangedPage>,
    // The first bytes of images, one behind another. Those of a page that got a whole image stay
    // here unused.
    starts: Vec<u8>,
    // There is room for the images of all changes, so that each can be replaced; it takes up no
    // memory of the machine until an image stands there.
    whole: Vec<PageImage>,
}

impl Model for Changes {
    ghost use Rattle.std.specs.Prelude.{ℕ, List, vec_capacity};
    ghost use Rattle.tune_journal.specs.Inside.ListedChanges.{listed_changes, HoldsChanges};

    ghost Value = { List (ℕ × List ℕ) };

    ghost view = { λ c. listed_changes c.starts.items c.whole.items c.changed.items };

    ghost invariant = { λ c.
        HoldsChanges c.starts.items c.whole.items c.changed.items (vec_capacity c.whole) };
}

impl Changes {
    /// No changes.
    pub fn new(alloc: Global) -> Changes
        ensures { result ≡ [] }
    {
        Changes {
            alloc,
            changed: VecDeque::new(alloc),
            starts: Vec::new(alloc),
            whole: Vec::new(alloc),
        }
    }

    /// Has the page change to this image, in place of an image that was put for it before.
    ///
    /// # Errors
    ///
    /// `AllocError` where there is no memory for a page that is not among the changes; they stay as
    /// they were.
    pub fn put(&mut self, page: u32, image: &PageImage) -> Result<(), AllocError>
        ensures ok { OnOk result (self.new ≡ with_change page image.now.bytes self.old) }
        // The page has this image, and each other page the one that it had, if any.
        ensures found { OnOk result (image_of page self.new ≡ Some image.now.bytes) }
        ensures others { (other : ℕ) → other ≢ page
            → image_of other self.new ≡ image_of other self.old }
        ensures some { OnOk result (0 < length self.new) }
        ensures err { OnErr result (self.new ≡ self.old) }
        ensures replaces { IsSome (image_of page self.old) → IsOk result }
    {
        let found = self.find_or_add(page, &[], &[])?;
        self.replace(found.at, page, image);
        Ok(())
    }

    /// Has the page change to the bytes of `head` and those of `rest` behind them, with zeros
    /// behind both, in place of an image that was put for it before.
    ///
    /// # Errors
    ///
    /// Those of [`Changes::put`].
    pub fn put_front(&mut self, page: u32, head: &[u8], rest: &[u8]) -> Result<(), AllocError>
        requires { length head.now + length rest.now ≤ block_bytes }
        ensures ok { OnOk result
            (self.new ≡ with_change page (padded_image (head.now ++ rest.now)) self.old) }
        ensures found { OnOk result
            (image_of page self.new ≡ Some (padded_image (head.now ++ rest.now))) }
        ensures others { (other : ℕ) → other ≢ page
            → image_of other self.new ≡ image_of other self.old }
        ensures some { OnOk result (0 < length self.new) }
        ensures err { OnErr result (self.new ≡ self.old) }
        ensures replaces { IsSome (image_of page self.old) → IsOk result }
    {
        let found = self.find_or_add(page, head, rest)?;
        if found.is_new {
            return Ok(());
        }
        self.replace_front(found.at, page, head, rest);
        Ok(())
    }

    /// Takes memory for so many more pages, and for so many bytes of those that are put by
    /// [`Changes::put_front`]. What the pages change to stays as it is.
    ///
    /// # Errors
    ///
    /// `AllocError` where there is no such memory.
    pub fn reserve(&mut self, more: usize, bytes: usize) -> Result<(), AllocError>
        ensures { self.new ≡ self.old }
    {
        take_room(self.alloc, &mut self.changed, &mut self.whole, more)?;
        self.starts.reserve(bytes)
    }

    /// The image that the page changes to; `None` exactly where it is not among the changes.
    pub fn get(&self, page: u32) -> Option<PageImage>
        ensures { option_map (λ image. image.bytes) result ≡ image_of page self.now }
    {
        match self.search(page) {
            Ok(at) => Some(self.image_at(at)),
            Err(_) => None,
        }
    }

    /// Puts the image that the page changes to in the place of `image`. Where the answer is false,
    /// it is not among the changes, and `image` stays.
    pub fn read(&self, page: u32, image: &mut PageImage) -> bool
        ensures found { result ≡ true → image_of page self.now ≡ Some image.new.bytes }
        ensures missing { result ≡ false → image_of page self.now ≡ None }
        ensures stays { result ≡ false → image.new ≡ image.old }
    {
        match self.search(page) {
            Ok(at) => {
                let _ = self.fill(at, &mut image.bytes, 4096);
                true
            }
            Err(_) => false,
        }
    }

    /// How many pages change.
    pub fn len(&self) -> usize
        ensures len { result ≡ length self.now }
        ensures rising { IsStrictlyIncreasing (map (λ c. c.0) self.now) }
        ensures sized { All (λ c. length c.1 ≡ block_bytes) self.now }
    {
        self.changed.len()
    }

    /// Whether no page changes.
    pub fn is_empty(&self) -> bool
        ensures { result ≡ (length self.now == 0) }
    {
        self.changed.is_empty()
    }

    /// The page of the change at this place.
    pub fn page_at(&self, place: usize) -> u32
        requires { place < length self.now }
        ensures page { result ≡ changed_page self.now place }
        ensures found { image_of result self.now ≡ Some (change_at self.now place).1 }
    {
        self.changed[place].page
    }

    /// The image of the change at this place.
    pub fn image_at(&self, place: usize) -> PageImage
        requires { place < length self.now }
        ensures { result.bytes ≡ (change_at self.now place).1 }
    {
        let mut image = PageImage::blank();
        let _ = self.fill(place, &mut image.bytes, 0);
        image
    }

    // Puts the image of the change at this place in the place of `image`, whose bytes from `used`
    // on are zeros. These are not cleared again; the answer says from where on the new one has
    // zeros.
    pub(crate) fn fill(&self, place: usize, image: &mut [u8], used: usize) -> usize
        requires place { place < length self.now }
        requires size { length image.old ≡ block_bytes }
        requires used { IsBlankFrom used image.old }
        ensures image { image.new ≡ (change_at self.now place).1 }
        ensures used { IsBlankFrom result image.new }
    {
        match &self.changed[place].kept {
            Kept::Start { from, size } => {
                fill_front(image, bytes_at(&self.starts, *from, *size), used)
            }
            Kept::Whole(at) => {
                image.copy_from_slice(&self.whole[*at].bytes);
                4096
            }
        }
    }

    // Does what `fill` does, for a commit that writes one image after another. These writes drive
    // the first bytes of all others out of the processor's cache; so those of the next changes are
    // read in one go, where this one stands at `ahead`, up to which that was done before.
    pub(crate) fn fill_next(
        &self,
        place: usize,
        image: &mut [u8],
        used: usize,
        ahead: &mut usize,
    ) -> usize
        requires place { place < length self.now }
        requires size { length image.old ≡ block_bytes }
        requires used { IsBlankFrom used image.old }
        ensures image { image.new ≡ (change_at self.now place).1 }
        ensures used { IsBlankFrom result image.new }
    {
        let used = self.read_ahead(place, image, used, ahead);
        self.fill(place, image, used)
    }

    // Copies the first bytes of the change at this place and of those behind it into `image`,
    // unless it stands before `ahead`. Of `used` and the answer holds what `fill` says.
    fn read_ahead(&self, place: usize, image: &mut [u8], used: usize, ahead: &mut usize) -> usize
        requires place { place < length self.now }
        requires size { length image.old ≡ block_bytes }
        requires used { IsBlankFrom used image.old }
        ensures size { length image.new ≡ block_bytes }
        ensures used { IsBlankFrom result image.new }
    {
        if place < *ahead {
            return used;
        }
        match &self.changed[place].kept {
            Kept::Start { from, .. } => {
                let end = copy_from(&self.starts, *from, image);
                *ahead = self.first_outside(place, *from, end);
                4096
            }
            Kept::Whole(_) => used,
        }
    }

    // Where the first change from this place on stands that has no first bytes between these.
    fn first_outside(&self, place: usize, from: usize, end: usize) -> usize {
        for next in place..self.changed.len() {
            match &self.changed[next].kept {
                Kept::Start { from: start, .. } if *start >= from && *start < end => {}
                _ => return next,
            }
        }
        self.changed.len()
    }

    // The image of the change at this place, where it is held whole.
    pub(crate) fn whole_at(&self, place: usize) -> Option<&PageImage>
        requires { place < length self.now }
        ensures { IfSome result (λ image. image.now.bytes ≡ (change_at self.now place).1) }
    {
        match &self.changed[place].kept {
            Kept::Start { .. } => None,
            Kept::Whole(at) => Some(&self.whole[*at]),
        }
    }

    // The place of the page. Where it is not among the changes, it is added with these first bytes.
    fn find_or_add(
        &mut self,
        page: u32,
        head: &[u8],
        rest: &[u8],
    ) -> Result<PlaceOfPage, AllocError>
        requires { length head.now + length rest.now ≤ block_bytes }
        ensures place { IfOk result (λ found. FoundAt page found.at self.new) }
        ensures is_new { IfOk result (λ found. found.is_new ≡ true
            → self.new ≡ with_change page (padded_image (head.now ++ rest.now)) self.old) }
        // What is then put stands in place of both.
        ensures put { OnOk result ((image : List ℕ)
            → with_change page image self.new ≡ with_change page image self.old) }
        ensures err { OnErr result (self.new ≡ self.old) }
        ensures replaces { IsSome (image_of page self.old) → IsOk result }
    {
        match self.search(page) {
            Ok(at) => Ok(PlaceOfPage { at, is_new: false }),
            Err(at) => {
                self.add(at, page, head, rest)?;
                Ok(PlaceOfPage { at, is_new: true })
            }
        }
    }

    // Adds a change to these first bytes, with zeros behind them. Where there is no memory, some of
    // them may stand among the others unused.
    fn add(&mut self, at: usize, page: u32, head: &[u8], rest: &[u8]) -> Result<(), AllocError>
        requires missing { MissingAt page at self.old }
        requires size { length head.now + length rest.now ≤ block_bytes }
        ensures ok { OnOk result
            (self.new ≡ with_change page (padded_image (head.now ++ rest.now)) self.old) }
        ensures found { OnOk result (FoundAt page at self.new) }
        ensures err { OnErr result (self.new ≡ self.old) }
    {
        take_room(self.alloc, &mut self.changed, &mut self.whole, 1)?;
        let kept = add_bytes(&mut self.starts, head, rest)?;
        self.changed.insert(at, ChangedPage { page, kept })?;
        Ok(())
    }

    // Has the page at this place change to this image. There is room for it.
    fn replace(&mut self, at: usize, page: u32, image: &PageImage)
        requires { FoundAt page at self.old }
        ensures { self.new ≡ with_change page image.now.bytes self.old }
    {
        if let Kept::Whole(place) = &self.changed[at].kept {
            let place = *place;
            self.whole[place] = *image;
            return;
        }
        let place = self.whole.len();
        match self.whole.extend_from_slice(slice::from_ref(image)) {
            Ok(()) => self.changed[at] = ChangedPage {
                page,
                kept: Kept::Whole(place),
            },
            Err(_) => unreachable!(),
        }
    }

    // The same, with these first bytes and zeros behind them. It is apart, so that no room for an
    // image is cleared on the way of a page that is not among the changes.
    #[inline(never)]
    fn replace_front(&mut self, at: usize, page: u32, head: &[u8], rest: &[u8])
        requires found { FoundAt page at self.old }
        requires size { length head.now + length rest.now ≤ block_bytes }
        ensures { self.new ≡ with_change page (padded_image (head.now ++ rest.now)) self.old }
    {
        self.replace(at, page, &restored(head, rest));
    }

    // Where the page is, or where it would go.
    fn search(&self, page: u32) -> Result<usize, usize>
        ensures found { IfOk result (λ at. FoundAt page at self.now) }
        ensures missing { IfErr result (λ at. MissingAt page at self.now) }
    {
        if self.is_past(page) {
            return Err(self.len());
        }
        let at = self.changed.partition_point(|changed| changed.page < page);
        match self.changed.get(at) {
            Some(changed) if changed.page == page => Ok(at),
            _ => Err(at),
        }
    }

    // Whether all changes are of pages below this one.
    fn is_past(&self, page: u32) -> bool
        ensures { IsTrue result → MissingAt page (length self.now) self.now }
    {
        match self.changed.back() {
            Some(last) => last.page < page,
            None => true,
        }
    }
}

// Takes memory for so many more changes, and for some more where there is none for these.
#[inline(always)]
fn take_room(
    alloc: Global,
    changed: &mut VecDeque<ChangedPage>,
    whole: &mut Vec<PageImage>,
    more: usize,
) -> Result<(), AllocError>
    ensures changed { changed.new.items ≡ changed.old.items }
    ensures whole { whole.new.items ≡ whole.old.items }
    ensures ok { OnOk result (length changed.old.items + more ≤ vec_capacity whole.new) }
    ensures capacity { vec_capacity whole.old ≤ vec_capacity whole.new }
{
    let Some(count) = changed.len().checked_add(more) else {
        return Err(AllocError);
    };
    if count <= whole.capacity() {
        return Ok(());
    }
    let more = more.max(ROOM);
    reserve_images(alloc, whole, count.max(ROOM))?;
    changed.reserve(more)
}

// Takes memory for so many images in all. Where none stands there, it is taken anew: to make room
// larger may copy it, and so take up memory of the machine for what holds nothing.
fn reserve_images(alloc: Global, whole: &mut Vec<PageImage>, count: usize) -> Result<(), AllocError>
    ensures items { whole.new.items ≡ whole.old.items }
    ensures ok { OnOk result (count ≤ vec_capacity whole.new) }
    ensures capacity { vec_capacity whole.old ≤ vec_capacity whole.new }
{
    if !whole.is_empty() || count <= whole.capacity() {
        return whole.reserve(count.saturating_sub(whole.len()));
    }
    let room = whole.capacity().saturating_mul(2).max(count);
    *whole = Vec::with_capacity(alloc, room)?;
    Ok(())
}

// Puts these bytes behind those of other images. Where there is no memory for all of them, some
// may stand there unused.
fn add_bytes(starts: &mut Vec<u8>, head: &[u8], rest: &[u8]) -> Result<Kept, AllocError>
    requires { length head.now + length rest.now ≤ block_bytes }
    ensures kept { IfOk result (λ kept.
        kept ≡ Start (length starts.old.items) (length head.now + length rest.now)) }
    ensures ok { OnOk result
        (starts.new.items ≡ starts.old.items ++ (head.now ++ rest.now)) }
    ensures err { OnErr result
        ((more : List ℕ) × (starts.new.items ≡ starts.old.items ++ more)) }
{
    let from = starts.len();
    let size = (head.len() + rest.len()) as u16;
    starts.extend_from_slice(head)?;
    starts.extend_from_slice(rest)?;
    Ok(Kept::Start { from, size })
}

// The bytes at this place.
fn bytes_at(starts: &[u8], from: usize, size: u16) -> &[u8]
    requires { from + size ≤ length starts.now }
    ensures { result.now ≡ take size (drop from starts.now) }
{
    &starts[from..from + size as usize]
}

// Copies the bytes from this place on into the image, as many as it holds; the answer is where they
// end.
fn copy_from(starts: &[u8], from: usize, image: &mut [u8]) -> usize
    requires image { length image.old ≡ block_bytes }
    requires from { from ≤ length starts.now }
    ensures { length image.new ≡ block_bytes }
{
    let end = starts.len().min(from + image.len());
    image[..end - from].copy_from_slice(&starts[from..end]);
    end
}

// The image of these first bytes.
fn restored(head: &[u8], rest: &[u8]) -> PageImage
    requires { length head.now + length rest.now ≤ block_bytes }
    ensures { result.bytes ≡ padded_image (head.now ++ rest.now) }
{
    let mut bytes = [0; 4096];
    put_both(&mut bytes, head, rest);
    PageImage { bytes }
}

// Puts the bytes of `head` and those of `rest` behind them in front of an image of zeros.
fn put_both(image: &mut [u8], head: &[u8], rest: &[u8])
    requires zeros { image.old ≡ replicate block_bytes 0 }
    requires size { length head.now + length rest.now ≤ block_bytes }
    ensures { image.new ≡ padded_image (head.now ++ rest.now) }
{
    put_before(&mut image[head.len()..], rest);
    image[..head.len()].copy_from_slice(head);
}

// Puts bytes in front of zeros.
fn put_before(zeros: &mut [u8], bytes: &[u8])
    requires zeros { zeros.old ≡ replicate (length zeros.old) 0 }
    requires size { length bytes.now ≤ length zeros.old }
    ensures { zeros.new ≡ bytes.now ++ replicate (length zeros.old - length bytes.now) 0 }
{
    zeros[..bytes.len()].copy_from_slice(bytes);
}

// Puts the image of these first bytes in the place of `image`, whose bytes from `used` on are
// zeros. The answer is how many first bytes there are.
fn fill_front(image: &mut [u8], start: &[u8], used: usize) -> usize
    requires image { length image.old ≡ block_bytes }
    requires start { length start.now ≤ block_bytes }
    requires used { IsBlankFrom used image.old }
    ensures image { image.new ≡ padded_image start.now }
    ensures used { IsBlankFrom result image.new }
{
    let size = start.len();
    clear_from(image, size, used);
    image[..size].copy_from_slice(start);
    size
}

// Clears all bytes of an image from `size` on; those from `used` on are zeros before.
fn clear_from(image: &mut [u8], size: usize, used: usize)
    requires image { length image.old ≡ block_bytes }
    requires size { size ≤ block_bytes }
    requires used { IsBlankFrom used image.old }
    ensures image { length image.new ≡ block_bytes }
    ensures used { IsBlankFrom size image.new }
{
    if used <= size {
        return;
    }
    image[size..used].fill(0);
}
