//! Types of the auxiliary vector on a first stack (getauxval(3)).

/// Ends the vector.
pub const AT_NULL: u64 = 0;
/// The address of the program headers.
pub const AT_PHDR: u64 = 3;
/// The bytes of a program header.
pub const AT_PHENT: u64 = 4;
/// The number of program headers.
pub const AT_PHNUM: u64 = 5;
/// The bytes of a page.
pub const AT_PAGESZ: u64 = 6;
/// The program's entry.
pub const AT_ENTRY: u64 = 9;
/// The real user.
pub const AT_UID: u64 = 11;
/// The effective user.
pub const AT_EUID: u64 = 12;
/// The real group.
pub const AT_GID: u64 = 13;
/// The effective group.
pub const AT_EGID: u64 = 14;
/// What the processor can do.
pub const AT_HWCAP: u64 = 16;
/// Whether the program gets rights that its caller lacks.
pub const AT_SECURE: u64 = 23;
/// The address of 16 random bytes.
pub const AT_RANDOM: u64 = 25;
/// The address of the program's name.
pub const AT_EXECFN: u64 = 31;
/// The bit of AT_HWCAP that says: atomic instructions (CAS, LDADD and their kin).
pub const HWCAP_ATOMICS: u64 = 1 << 8;
