// A block of memory as a row of places, each empty or holding a value. No other file makes or follows a pointer.
ghost use Rattle.std.specs.Prelude.{◌≡◌, ℕ, ◌<◌, List, Option, Some, None, length, replicate, get_or, slice_set, IfOk, ⊤};
ghost use Rattle.std.specs.Vec.Ownership.{FitsInBlock};
ghost use base.Fml.{ftrue};
ghost use denote.RawPtr.{Ptr};
ghost use Rattle.linked_cells.specs.Ownership.{memory_owns, memory_lent, deed_owns};
ghost use Rattle.linked_cells.specs.Addresses.{nth_address, index_at, IsAddress, IsFilled};

use std::alloc::{AllocError, Allocator};
use std::marker::{Model, PhantomData};
use std::mem::{align_of, size_of};

/// Where a value lies. It owns nothing.
pub struct Address<T> {
    pub(crate) ptr: *mut T,
}

impl<T> Clone for Address<T> {
    ghost is_clone = { λ x y. y ≡ x };

    ghost is_infallible = { λ _. ⊤ };

    fn clone(&self) -> Result<Address<T>, AllocError> {
        Ok(*self)
    }
}

impl<T> Copy for Address<T> {}

/// The owner of the places of a block. It takes no space.
pub struct Memory<T> {
    mark: PhantomData<*const T>,
    ghost at: { Ptr },
    ghost places: { List (Option T) },
}

impl<T> Model for Memory<T> {
    ghost also_owns = { λ m. memory_owns T.row m.at m.places };

    ghost also_shares = { λ m _ κ. memory_lent T.row m.at m.places κ };
}

/// The right to give the block back to its allocator. It takes no space.
pub struct Deed<T, A: Allocator> {
    mark: PhantomData<*const (T, A)>,
    ghost at: { Ptr },
    ghost len: { ℕ },
    ghost alloc: { A },
}

impl<T, A: Allocator> Model for Deed<T, A> {
    ghost also_owns = { λ d. deed_owns T.row (A.dealloc_token d.alloc) d.at d.len };

    ghost also_shares = { λ _ _ _. ftrue };
}

/// A block with so many places, each empty. The first is at the address.
pub(crate) fn allocate<T, A: Allocator>(
    alloc: &A,
    len: usize,
) -> Result<(Address<T>, Memory<T>, Deed<T, A>), AllocError>
    requires fits { FitsInBlock T.row len }
    ensures made { IfOk result (λ r. (r.1.at ≡ r.0.ptr) × (r.1.places ≡ replicate len None) × (r.2.at ≡ r.0.ptr) × (r.2.len ≡ len) × (r.2.alloc ≡ alloc.now)) }
{
    match alloc.allocate(len * size_of::<T>(), align_of::<T>()) {
        Ok(block) => {
            let base = Address {
                ptr: block as *mut T,
            };
            Ok((
                base,
                Memory { mark: PhantomData },
                Deed { mark: PhantomData },
            ))
        }
        Err(error) => Err(error),
    }
}

/// Gives the block back. What its places hold is forgotten.
pub(crate) fn deallocate<T, A: Allocator>(
    alloc: &A,
    base: Address<T>,
    len: usize,
    memory: Memory<T>,
    deed: Deed<T, A>,
)
    requires whole { (memory.at ≡ base.ptr) × (length memory.places ≡ len) × (deed.at ≡ base.ptr) × (deed.len ≡ len) × (deed.alloc ≡ alloc.now) }
{
    let Memory { mark: _ } = memory;
    let Deed { mark: _ } = deed;
    unsafe {
        alloc.deallocate(base.ptr as *mut u8, len * size_of::<T>(), align_of::<T>());
    }
}

impl<T> Memory<T> {
    /// The address of the place.
    pub(crate) fn nth(&self, base: Address<T>, index: usize) -> Address<T>
        requires there { (base.ptr ≡ self.now.at) × (index < length self.now.places) }
        ensures value { result.ptr ≡ nth_address T.row self.now.at index }
    {
        let ptr = unsafe { base.ptr.add(index) };
        Address { ptr }
    }

    pub(crate) fn read(&self, address: Address<T>) -> &T
        requires there { IsAddress T.row self.now.at address.ptr × IsFilled self.now.places (index_at T.row self.now.at address.ptr) }
        ensures value { get_or self.now.places (index_at T.row self.now.at address.ptr) None ≡ Some result.now }
    {
        let ptr = address.ptr;
        unsafe { &*ptr }
    }

    /// The place holds the value, whatever it held before.
    pub(crate) fn write(&mut self, address: Address<T>, value: T)
        requires there { IsAddress T.row self.old.at address.ptr × (index_at T.row self.old.at address.ptr < length self.old.places) }
        ensures value { (self.new.at ≡ self.old.at) × (self.new.places ≡ slice_set self.old.places (index_at T.row self.old.at address.ptr) (Some value)) }
    {
        let ptr = address.ptr;
        unsafe { ptr.write(value) }
    }
}
