//! MMAP2.
#![tactic(auto, using(perf_reader::proofs::Calls::chain))]

ghost use Rattle.std.specs.Prelude.{◌≡◌, IsTrue, IfOk, option_map};
ghost use Rattle.perf_base.specs.Layout.{value};
ghost use Rattle.perf_base.specs.Misc.{build_id_bit};
ghost use Rattle.perf_types.specs.MmapDetail as file;
ghost use Rattle.perf_types.specs.Prelude.{Call, Reads, ReadsPlain, ReadsInPlace, NeedsNoMemory, kinds};
ghost use Rattle.perf_types.specs.Prelude.{cow_items, is_borrowed, text_of, has_bit};

use crate::hex::Hex;
use crate::mmap::Mmap;
use crate::pair::{pair_in, read_pair};
use crate::text::text;
use perf_base::sys::PERF_RECORD_MISC_MMAP_BUILD_ID;
use perf_base::{CowSlice, Endian, ParseResult, ReadResult, Refusal};
use perf_buffers::input::Input;
use perf_reader::read::{HasTransition, ReadFrom};
use perf_reader::reader::Reader;
use std::alloc::Global;
use std::fmt;

/// A process mapped something into its memory (`PERF_RECORD_MMAP2`): as [`Mmap`], and also which
/// file it was.
#[derive(Debug, Drop)]
pub struct Mmap2<'a> {
    /// The process id.
    pub pid: u32,
    /// The id of its thread.
    pub tid: u32,
    /// The address of the mapping in the process's memory.
    pub addr: u64,
    /// The size of the mapping in bytes.
    pub len: u64,
    /// The offset of the mapping in the file, in bytes.
    pub pgoff: u64,
    /// How the memory may be used, `PROT_*` of mmap(2).
    pub prot: u32,
    /// How it was mapped, `MAP_*` of mmap(2).
    pub flags: u32,
    /// The file's path, without the trailing zero bytes. If there is no file, it is the kernel's
    /// name for what is mapped, such as `//anon` or `[vdso]`.
    pub filename: CowSlice<'a, u8>,
    detail: MmapDetail,
    ghost fitting: { IsTrue (file.has_fitting_id detail) },
}

/// Which file was mapped: one by its inode, or a program by its build id. Bit 14 of the header's
/// `misc`, `PERF_RECORD_MISC_MMAP_BUILD_ID`, specifies which of the two a record has.
#[derive(Clone, Drop)]
pub enum MmapDetail {
    /// The file's inode.
    Default {
        /// The major number of the device that contains the file.
        maj: u32,
        /// The minor number of that device.
        min: u32,
        /// The number of the inode.
        ino: u64,
        /// The generation of the inode, which distinguishes files that used its number one after
        /// another.
        ino_generation: u64,
    },
    /// The program's build id: the first `len` bytes of `build_id`.
    BuildId {
        /// The build id, followed by bytes without a meaning.
        build_id: [u8; 20],
        /// The size of the build id in bytes, at most 20.
        len: u8,
    },
}

/// A build id is shown as hexadecimal digits, without the bytes after it.
impl fmt::Debug for MmapDetail {
    fn fmt<W: fmt::Write>(&self, f: &mut fmt::Formatter<W>) -> fmt::Result {
        match self {
            MmapDetail::Default {
                maj,
                min,
                ino,
                ino_generation,
            } => f
                .debug_struct("Default")
                .field("maj", maj)
                .field("min", min)
                .field("ino", ino)
                .field("ino_generation", ino_generation)
                .finish(),
            MmapDetail::BuildId { build_id, len } => {
                let len = usize::from(*len).min(build_id.len());
                f.debug_struct("BuildId")
                    .field("build_id", &Hex(&build_id[..len]))
                    .finish()
            }
        }
    }
}

impl<'a> Mmap2<'a> {
    ghost use Rattle.perf_types.specs.Mmap.{mmap_value, mmap_form};
    ghost use Rattle.perf_types.specs.Mmap2.{mmap2_value, mmap2_form, mapping_of};
    ghost use Rattle.perf_types.specs.Prelude.{KeepsForm, IsClone, IsOwnedCopy};

    /// The record of these fields, including the bytes after a build id.
    pub fn from_parts(
        pid: u32,
        tid: u32,
        addr: u64,
        len: u64,
        pgoff: u64,
        prot: u32,
        flags: u32,
        filename: CowSlice<'a, u8>,
        detail: MmapDetail,
    ) -> Mmap2<'a>
        requires { IsTrue (file.has_fitting_id detail) }
        ensures value { mmap2_value result ≡ record {
          pid = pid;
          tid = tid;
          addr = addr;
          len = len;
          pgoff = pgoff;
          detail = file.detail_value detail;
          prot = prot;
          flags = flags;
          filename = cow_items filename.entry;
        } }
        ensures form { is_borrowed result.filename ≡ is_borrowed filename.entry }
        ensures detail { result.detail ≡ detail }
    {
        Mmap2 {
            pid,
            tid,
            addr,
            len,
            pgoff,
            prot,
            flags,
            filename,
            detail,
        }
    }

    /// The path as text, or `None` if it is not UTF-8.
    pub fn filename_os(&self) -> Option<&str>
        ensures { option_map (λ text. text.now) result ≡ text_of (cow_items self.now.filename) }
    {
        text(self.filename.as_slice())
    }

    /// The major number of the device that contains the file, if the record has an inode.
    pub fn maj(&self) -> Option<u32>
        ensures { result ≡ file.maj_of (mmap2_value self.now).detail }
    {
        match &self.detail {
            MmapDetail::Default { maj, .. } => Some(*maj),
            MmapDetail::BuildId { .. } => None,
        }
    }

    /// The minor number of that device, if the record has an inode.
    pub fn min(&self) -> Option<u32>
        ensures { result ≡ file.min_of (mmap2_value self.now).detail }
    {
        match &self.detail {
            MmapDetail::Default { min, .. } => Some(*min),
            MmapDetail::BuildId { .. } => None,
        }
    }

    /// The number of the inode, if the record has one.
    pub fn ino(&self) -> Option<u64>
        ensures { result ≡ file.ino_of (mmap2_value self.now).detail }
    {
        match &self.detail {
            MmapDetail::Default { ino, .. } => Some(*ino),
            MmapDetail::BuildId { .. } => None,
        }
    }

    /// The generation of the inode, if the record has one.
    pub fn ino_generation(&self) -> Option<u64>
        ensures { result ≡ file.ino_generation_of (mmap2_value self.now).detail }
    {
        match &self.detail {
            MmapDetail::Default { ino_generation, .. } => Some(*ino_generation),
            MmapDetail::BuildId { .. } => None,
        }
    }

    /// The build id of the program, if the record has one: the first bytes of the twenty, as many
    /// as the record specifies.
    pub fn build_id(&self) -> Option<&[u8]>
        ensures { option_map (λ id. id.now) result ≡
            file.build_id_of (mmap2_value self.now).detail }
    {
        match &self.detail {
            MmapDetail::Default { .. } => None,
            MmapDetail::BuildId { build_id, len } => Some(&build_id[..usize::from(*len)]),
        }
    }

    /// The MMAP record of the same mapping. It needs no memory if the path is borrowed.
    pub fn to_mmap(&self, alloc: Global) -> ParseResult<Mmap<'a>>
        ensures { KeepsForm mmap_value mmap_form (mapping_of (mmap2_value self.now))
            (mmap2_form self.now) result }
    {
        Ok(Mmap {
            pid: self.pid,
            tid: self.tid,
            addr: self.addr,
            len: self.len,
            pgoff: self.pgoff,
            filename: self.filename.clone(alloc)?,
        })
    }

    /// The MMAP record of the same mapping. It needs no memory.
    pub fn into_mmap(self) -> Mmap<'a>
        ensures same { mmap_value result ≡ mapping_of (mmap2_value self.entry) }
        ensures form { is_borrowed result.filename ≡ is_borrowed self.entry.filename }
    {
        Mmap {
            pid: self.pid,
            tid: self.tid,
            addr: self.addr,
            len: self.len,
            pgoff: self.pgoff,
            filename: self.filename,
        }
    }

    /// A copy of the record, including the bytes after a build id. It needs no memory if the path
    /// is borrowed.
    pub fn clone(&self, alloc: Global) -> ParseResult<Mmap2<'a>>
        ensures copy { IsClone mmap2_value mmap2_form self.now result }
        ensures detail { IfOk result (λ copy. copy.detail ≡ self.now.detail) }
    {
        let filename = self.filename.clone(alloc)?;
        Ok(Mmap2 {
            pid: self.pid,
            tid: self.tid,
            addr: self.addr,
            len: self.len,
            pgoff: self.pgoff,
            prot: self.prot,
            flags: self.flags,
            filename,
            detail: self.detail.copy(),
        })
    }

    /// Makes the record own its path, so that it does not borrow from the input. It needs no memory
    /// if it owns the path already. If out of memory, it returns `OutOfMemory` and the record is
    /// dropped.
    pub fn into_owned<'b>(self, alloc: Global) -> ParseResult<Mmap2<'b>>
        ensures copy { IsOwnedCopy mmap2_value mmap2_form self.entry result }
        ensures detail { IfOk result (λ copy. copy.detail ≡ self.entry.detail) }
    {
        let filename = self.filename.into_owned(alloc)?;
        Ok(Mmap2 {
            pid: self.pid,
            tid: self.tid,
            addr: self.addr,
            len: self.len,
            pgoff: self.pgoff,
            prot: self.prot,
            flags: self.flags,
            filename,
            detail: self.detail,
        })
    }
}

impl MmapDetail {
    // The same detail. Unlike `clone` it cannot be refused.
    fn copy(&self) -> MmapDetail
        ensures { result ≡ self.now }
    {
        match self {
            MmapDetail::Default {
                maj,
                min,
                ino,
                ino_generation,
            } => MmapDetail::Default {
                maj: *maj,
                min: *min,
                ino: *ino,
                ino_generation: *ino_generation,
            },
            MmapDetail::BuildId { build_id, len } => MmapDetail::BuildId {
                build_id: *build_id,
                len: *len,
            },
        }
    }
}

impl<'a> From<Mmap2<'a>> for Mmap<'a> {
    ghost use Rattle.perf_types.specs.Mmap.{mmap_value};
    ghost use Rattle.perf_types.specs.Mmap2.{mmap2_value, mapping_of};

    ghost from_gives = { λ longer shorter. (mmap_value shorter ≡ mapping_of (mmap2_value longer))
        × (is_borrowed shorter.filename ≡ is_borrowed longer.filename) };

    fn from(longer: Mmap2<'a>) -> Mmap<'a> {
        longer.into_mmap()
    }
}

// The maximal size of a build id in bytes.
const BUILD_ID_SIZE_MAX: u8 = 20;

/// Whether the record with this `misc` identifies its file by a build id.
#[inline]
#[tactic(auto, using(crate::proofs::Flags::misc_bits))]
pub fn has_build_id(misc: u16) -> bool
    ensures { result ≡ has_bit misc build_id_bit }
{
    misc & PERF_RECORD_MISC_MMAP_BUILD_ID == PERF_RECORD_MISC_MMAP_BUILD_ID
}

// The size of an inode's numbers in bytes.
const INODE_SIZE: usize = 24;

// The inode in these bytes.
#[inline]
#[tactic(auto)]
fn inode_in<E: Endian>(endian: &E, bytes: [u8; INODE_SIZE]) -> MmapDetail
    ensures value { file.detail_value result ≡ value (E.order endian.now) bytes 0 file.inode }
    ensures fitting { IsTrue (file.has_fitting_id result) }
{
    let (eights, _) = bytes.as_chunks::<8>();
    let (maj, min) = pair_in(endian, eights[0]);
    MmapDetail::Default {
        maj,
        min,
        ino: endian.convert_u64(eights[1]),
        ino_generation: endian.convert_u64(eights[2]),
    }
}

#[inline]
fn read_inode<'p, I: Input<'p>, E: Endian>(reader: &mut Reader<I, E>) -> ReadResult<MmapDetail>
    ensures memory { NeedsNoMemory (kinds result) }
    ensures fitting { IfOk result (λ d. IsTrue (file.has_fitting_id d)) }
    ensures call { Call I.source E.order (Reads (λ _. file.inode) file.detail_value)
        reader.old (kinds result) reader.new }
{
    if let Some(bytes) = reader.read_at_once::<INODE_SIZE>(4)? {
        return Ok(inode_in(reader.endian(), bytes));
    }
    Ok(MmapDetail::Default {
        maj: reader.read_u32()?,
        min: reader.read_u32()?,
        ino: reader.read_u64()?,
        ino_generation: reader.read_u64()?,
    })
}

#[inline]
fn read_build_id<'p, I: Input<'p>, E: Endian>(reader: &mut Reader<I, E>) -> ReadResult<MmapDetail>
    ensures memory { NeedsNoMemory (kinds result) }
    ensures fitting { IfOk result (λ d. IsTrue (file.has_fitting_id d)) }
    ensures call { Call I.source E.order (Reads (λ _. file.build_id) file.detail_value)
        reader.old (kinds result) reader.new }
{
    let len = reader.read_u8()?;
    reader.skip(3)?;
    let build_id = reader.read_array::<20>()?;
    if len > BUILD_ID_SIZE_MAX {
        return Err(Refusal::BuildIdLength);
    }
    Ok(MmapDetail::BuildId { build_id, len })
}

#[inline]
fn read_detail<'p, I: Input<'p>, E: Endian>(reader: &mut Reader<I, E>) -> ReadResult<MmapDetail>
    ensures memory { NeedsNoMemory (kinds result) }
    ensures fitting { IfOk result (λ d. IsTrue (file.has_fitting_id d)) }
    ensures call { Call I.source E.order (Reads file.mmap_detail file.detail_value)
        reader.old (kinds result) reader.new }
{
    if has_build_id(reader.config().misc()) {
        read_build_id(reader)
    } else {
        read_inode(reader)
    }
}

impl HasTransition for MmapDetail {
    ghost transition = { ReadsPlain file.mmap_detail file.detail_value };
}

impl<'p, I: Input<'p>> ReadFrom<'p, I> for MmapDetail {
    #[inline]
    fn read<E: Endian>(reader: &mut Reader<I, E>) -> ReadResult<Self> {
        read_detail(reader)
    }
}

// The task, and what it mapped and where.
#[derive(Copy, Clone)]
pub(crate) struct Place {
    pub(crate) pid: u32,
    pub(crate) tid: u32,
    pub(crate) addr: u64,
    pub(crate) len: u64,
    pub(crate) pgoff: u64,
}

// The size of a place in bytes.
const PLACE_SIZE: usize = 32;

impl Place {
    ghost use Rattle.perf_types.specs.Mmap2.{place};

    // The place in these bytes.
    #[inline]
    #[tactic(auto)]
    fn from_bytes<E: Endian>(endian: &E, bytes: [u8; PLACE_SIZE]) -> Place
        ensures { result ≡ value (E.order endian.now) bytes 0 place }
    {
        let (eights, _) = bytes.as_chunks::<8>();
        let (pid, tid) = pair_in(endian, eights[0]);
        Place {
            pid,
            tid,
            addr: endian.convert_u64(eights[1]),
            len: endian.convert_u64(eights[2]),
            pgoff: endian.convert_u64(eights[3]),
        }
    }

    #[inline]
    pub(crate) fn read<'p, I: Input<'p>, E: Endian>(reader: &mut Reader<I, E>) -> ReadResult<Place>
        ensures memory { NeedsNoMemory (kinds result) }
        ensures call { Call I.source E.order (Reads (λ _. place) (λ p. p))
            reader.old (kinds result) reader.new }
    {
        if let Some(bytes) = reader.read_at_once::<PLACE_SIZE>(5)? {
            return Ok(Place::from_bytes(reader.endian(), bytes));
        }
        Ok(Place {
            pid: reader.read_u32()?,
            tid: reader.read_u32()?,
            addr: reader.read_u64()?,
            len: reader.read_u64()?,
            pgoff: reader.read_u64()?,
        })
    }
}

impl<'p> Mmap2<'p> {
    ghost use Rattle.perf_types.specs.Mmap2.{mmap2_value, IsBorrowedMmap2};
    ghost use Rattle.perf_types.specs.Mmap2.{after_place, after_detail};

    // What follows the place.
    #[inline]
    fn read_after<I: Input<'p>, E: Endian>(
        reader: &mut Reader<I, E>,
        place: Place,
    ) -> ReadResult<Mmap2<'p>>
        ensures call { Call I.source E.order
            (ReadsInPlace (after_place place) mmap2_value IsBorrowedMmap2)
            reader.old (kinds result) reader.new }
    {
        match read_detail(reader) {
            Ok(detail) => Mmap2::read_path(reader, place, detail),
            Err(refusal) => Err(refusal),
        }
    }

    // What follows the detail.
    #[inline]
    fn read_path<I: Input<'p>, E: Endian>(
        reader: &mut Reader<I, E>,
        place: Place,
        detail: MmapDetail,
    ) -> ReadResult<Mmap2<'p>>
        requires { IsTrue (file.has_fitting_id detail) }
        ensures call { Call I.source E.order
            (ReadsInPlace (λ _. after_detail place (file.detail_value detail)) mmap2_value
            IsBorrowedMmap2)
            reader.old (kinds result) reader.new }
    {
        let (prot, flags) = read_pair(reader)?;
        let filename = reader.read_rest_trim_nul()?;
        let Place {
            pid,
            tid,
            addr,
            len,
            pgoff,
        } = place;
        Ok(Mmap2::from_parts(pid, tid, addr, len, pgoff, prot, flags, filename, detail))
    }
}

impl HasTransition for Mmap2<'_> {
    ghost use Rattle.perf_types.specs.Mmap2.{mmap2, mmap2_value, IsBorrowedMmap2};

    ghost transition = { ReadsInPlace mmap2 mmap2_value IsBorrowedMmap2 };
}

impl<'p, I: Input<'p>> ReadFrom<'p, I> for Mmap2<'p> {
    #[inline]
    #[tactic(auto)]
    fn read<E: Endian>(reader: &mut Reader<I, E>) -> ReadResult<Self> {
        match Place::read(reader) {
            Ok(place) => Mmap2::read_after(reader, place),
            Err(refusal) => Err(refusal),
        }
    }
}
