// Readers who wait, second stores, and what isn't there. The values are worked by hand.
use crate::{Cells, FetchError, Fetched, Reader, StoreError};
use std::test::Fail;

#[test]
fn a_store_answers_those_who_waited(rt: HostRuntime) -> Result<(), Fail> {
    let mut cells = Cells::new(rt.alloc());
    assert_eq!(rt; cells.alloc_cells(2), Ok(0));
    assert_eq!(rt; cells.alloc_cells(3), Ok(1));
    let waiting = [Reader { frame: 7, inlet: 2 }, Reader { frame: 0, inlet: 4 }];
    for reader in waiting {
        assert_eq!(rt; cells.fetch(1, 2, reader), Ok(Fetched::Deferred));
    }
    let Ok(answered) = cells.store(1, 2, 40, 1025) else {
        return Err(Fail::from("the store"));
    };
    assert_eq!(rt; answered.as_slice(), waiting.as_slice());
    assert_eq!(rt; cells.fetch(1, 2, waiting[0]), Ok(Fetched::Now(40)));
    assert_eq!(rt;
        cells.store(1, 2, 41, 9).err(),
        Some(StoreError::Twice { first: 1025 })
    );
    assert_eq!(rt; cells.fetch(1, 2, waiting[0]), Ok(Fetched::Now(40)));
    Ok(())
}

#[test]
fn what_is_not_there_is_refused(rt: HostRuntime) {
    let mut cells = Cells::new(rt.alloc());
    let reader = Reader { frame: 0, inlet: 0 };
    assert_eq!(rt; cells.fetch(0, 0, reader), Err(FetchError::NoArray));
    assert_eq!(rt; cells.store(0, 0, 1, 1).err(), Some(StoreError::NoArray));
    assert_eq!(rt; cells.alloc_cells(2), Ok(0));
    assert_eq!(rt;
        cells.fetch(0, 2, reader),
        Err(FetchError::OutOfRange { len: 2 })
    );
    assert_eq!(rt;
        cells.store(0, 2, 1, 1).err(),
        Some(StoreError::OutOfRange { len: 2 })
    );
    assert_eq!(rt; cells.used(), 2);
    assert_eq!(rt; cells.alloc_cells(0), Ok(1));
    assert_eq!(rt; cells.used(), 2);
}
