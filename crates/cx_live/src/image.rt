//! What a live machine starts from.

ghost use Rattle.std.specs.Prelude.{◌≡◌, ◌<◌, [], IfOk, OnOk, IsSome, IsTrue, unwrap_or};
ghost use Rattle.cx_codec.specs.Reads.{over};
ghost use Rattle.cx_io.specs.Cause.{HasCause};
ghost use Rattle.cx_live.specs.Fault.{ReadsImage};
ghost use Rattle.cx_live.specs.Image.{IsImage};
ghost use Rattle.cx_live.specs.Run.{reset_state};
ghost use Rattle.cx_map.specs.Bytes.{AreBytes};
ghost use Rattle.cx_ram.specs.PhysicalMemory.{page_of};

use crate::fault::ImageFault;
use crate::reading::image;
use cx_codec::Bytes;
use cx_csr::State;
use cx_hart::Machine;
use cx_io::Source;
use cx_log::close;
use cx_map::PAGE_SIZE;
use cx_ram::are_bytes;
use std::alloc::Global;
use std::marker::Model;

/// A machine before its first step: RAM, disk, and the bytes that will come to the console.
#[derive(Drop)]
pub struct Image {
    pub(crate) version: u8,
    pub(crate) split: bool,
    pub(crate) machine: Machine,
    pub(crate) disk: Vec<u8>,
    pub(crate) console: Vec<u8>,
}

impl Model for Image {
    ghost use Rattle.std.specs.Prelude.{◌≡◌};
    ghost use Rattle.cx_live.specs.Image.{Image};
    ghost use Rattle.cx_live.specs.Blank.{IsBlank};
    ghost use Rattle.cx_machine.specs.Machine.{pages_of};

    ghost Value = { Image };

    ghost view = { λ i. record {
      version = i.version;
      split = i.split;
      pages = pages_of i.machine.memory;
      memory = i.machine.memory;
      disk = i.disk.items;
      console = i.console.items;
    } };

    ghost invariant = { λ i. IsBlank i.version i.split i.disk.items i.console.items i.machine };
}

impl Image {
    /// Reads an image, of either version, to the input's end. `Format` comes exactly where a field of it is bad, the
    /// first one: it isn't whole, breaks its rule, or is too great; or a byte stands behind the image. `ReadFault`
    /// comes only where the source's count of faults rose; what the source had given is bad at its very end at most.
    /// `NoMemory` is free.
    pub fn read<S: Source>(alloc: Global, bytes: Bytes, source: &mut S) -> Result<Image, ImageFault>
        requires { IsTrue bytes.live }
        ensures image { IsSome (S.left source.old) → ReadsImage (over bytes (S.left source.old) (S.given source.old))
            (S.left source.new) (S.given source.new) result }
        ensures rules { IfOk result IsImage }
        ensures spent { IsSome (S.left source.old) → OnOk result (unwrap_or (S.left source.new) [] ≡ []) }
        ensures cause { HasCause ImageFault.ReadFault (S.faults source.old) (S.faults source.new) result }
    {
        let mut bytes = bytes;
        let image = image(alloc, &mut bytes, source)?;
        close(&mut bytes, source)?;
        image.is_image();
        Ok(image)
    }

    // An image keeps the rules.
    fn is_image(&self)
        ensures { IsImage self.now }
    {
        self.machine.ram().pages();
        are_vector_bytes(&self.disk);
        are_vector_bytes(&self.console);
    }

    /// The version of its format, which a recording of it has too: 1 or 2.
    pub fn version(&self) -> u8
        ensures { result ≡ self.now.version }
    {
        self.version
    }

    /// Whether the hart carries out misaligned loads and stores, which version 1 can't say.
    pub fn split(&self) -> bool
        ensures { result ≡ self.now.split }
    {
        self.split
    }

    /// The state of the hart, which is that at reset.
    pub fn start(&self) -> State
        ensures { result ≡ reset_state }
    {
        *self.machine.state()
    }

    /// How many pages RAM has.
    #[tactic(auto, using(crate::proofs::Sizes::pages_are))]
    pub fn pages(&self) -> u32
        ensures { result ≡ self.now.pages }
    {
        self.machine.ram().pages()
    }

    /// Copies the bytes of a page.
    #[tactic(auto, using(crate::proofs::Sizes::is_page))]
    pub fn page(&self, number: u32, into: &mut [u8; PAGE_SIZE])
        requires { number < self.now.pages }
        ensures { into.new ≡ page_of self.now.memory number }
    {
        self.machine.ram().pages();
        self.machine.ram().page(number, into);
    }
}

// The elements of a vector of bytes are bytes.
fn are_vector_bytes(bytes: &Vec<u8>)
    ensures { AreBytes bytes.now.items }
{
    are_bytes(bytes);
}
