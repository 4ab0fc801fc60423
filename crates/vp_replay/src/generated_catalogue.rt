//! The catalogue of the generator.

ghost use Rattle.std.specs.Prelude.{◌≡◌, IfOk};
ghost use Rattle.vp_model.specs.Generated.{generated_catalogue};

use std::alloc::Global;
use vp_base::NoMemory;
use vp_catalog::{Catalog, CatalogFault};

/// Five sites, and forty records with a copy of weight 1 at each of three sites.
const TEXT: &[u8] = b"\
site 1 7001\n\
site 2 7002\n\
site 3 7003\n\
site 4 7004\n\
site 5 7005\n\
record r0 100 1:1 2:1 3:1\n\
record r1 100 2:1 3:1 4:1\n\
record r2 100 3:1 4:1 5:1\n\
record r3 100 1:1 4:1 5:1\n\
record r4 100 1:1 2:1 5:1\n\
record r5 100 1:1 2:1 3:1\n\
record r6 100 2:1 3:1 4:1\n\
record r7 100 3:1 4:1 5:1\n\
record r8 100 1:1 4:1 5:1\n\
record r9 100 1:1 2:1 5:1\n\
record r10 100 1:1 2:1 3:1\n\
record r11 100 2:1 3:1 4:1\n\
record r12 100 3:1 4:1 5:1\n\
record r13 100 1:1 4:1 5:1\n\
record r14 100 1:1 2:1 5:1\n\
record r15 100 1:1 2:1 3:1\n\
record r16 100 2:1 3:1 4:1\n\
record r17 100 3:1 4:1 5:1\n\
record r18 100 1:1 4:1 5:1\n\
record r19 100 1:1 2:1 5:1\n\
record r20 100 1:1 2:1 3:1\n\
record r21 100 2:1 3:1 4:1\n\
record r22 100 3:1 4:1 5:1\n\
record r23 100 1:1 4:1 5:1\n\
record r24 100 1:1 2:1 5:1\n\
record r25 100 1:1 2:1 3:1\n\
record r26 100 2:1 3:1 4:1\n\
record r27 100 3:1 4:1 5:1\n\
record r28 100 1:1 4:1 5:1\n\
record r29 100 1:1 2:1 5:1\n\
record r30 100 1:1 2:1 3:1\n\
record r31 100 2:1 3:1 4:1\n\
record r32 100 3:1 4:1 5:1\n\
record r33 100 1:1 4:1 5:1\n\
record r34 100 1:1 2:1 5:1\n\
record r35 100 1:1 2:1 3:1\n\
record r36 100 2:1 3:1 4:1\n\
record r37 100 3:1 4:1 5:1\n\
record r38 100 1:1 4:1 5:1\n\
record r39 100 1:1 2:1 5:1\n";

/// Reads the catalogue of each schedule that the generator makes.
pub fn generated_catalogue(alloc: Global) -> Result<Catalog, NoMemory>
    ensures { IfOk result (λ catalog. catalog ≡ generated_catalogue) }
{
    match Catalog::read(alloc, TEXT) {
        Ok(catalog) => Ok(catalog),
        Err(CatalogFault::NoMemory) => Err(NoMemory),
        Err(CatalogFault::BadLine { .. }) => unreachable!(),
        Err(CatalogFault::Twice { .. }) => unreachable!(),
        Err(CatalogFault::TooMany { .. }) => unreachable!(),
    }
}
