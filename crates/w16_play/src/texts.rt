//! Scripts over the sample files that several tests play, each over stores of its own.

/// The sample files, as they are.
pub const ALL: &str = "TLIB.DLL, TAPP.EXE, TRES.DLL";

/// A library is loaded, and its code comes again with the same bytes however often it is discarded.
pub const FIRST_LOAD: &str = "\
LoadLibrary TLIB.DLL -> 0021
GetProcAddress 0x21 geta -> 01070000
GetProcAddress 0x21 #2 -> 010f0004
Read 0x01070000 16 -> bytes 9a04000f019a04000f01b81400cb9090
Read 0x010f0004 1 -> bytes cb
GlobalCompact 0xffffffff -> 00001000
GlobalFlags 0x106 -> 4100
Read 0x01070000 16 -> bytes 9a04000f019a04000f01b81400cb9090
GlobalCompact 0xffffffff -> 00001000
GlobalFlags 0x106 -> 4100
Read 0x01070000 16 -> bytes 9a04000f019a04000f01b81400cb9090
Write 0x01070000 00 -> fault readonly";

/// An application is loaded with the library that it imports.
pub const IMPORTS: &str = "\
LoadModule TAPP.EXE -> 0021
GetModuleHandle tlib -> 0022
GetModuleUsage 0x22 -> 0001
Read 0x01070000 16 -> bytes 9a00000f019a040017019a00000000cb
FreeLibrary 0x22 -> 0001
FreeLibrary 0x22 -> 0001
GlobalCompact 0xffffffff -> 00001000
Read 0x01070000 16 -> bytes 9a00000f019a040017019a00000000cb
LoadModule TAPP.EXE -> 0010
FreeModule 0x21 -> 0000
GetModuleHandle TLIB -> 0000";

/// A resource is loaded twice, locked, written to, discarded, locked again and freed as often as it was loaded.
pub const RESOURCE: &str = "\
LoadLibrary TRES.DLL -> 0021
FindResource 0x21 #1 #10 -> 0001
LoadResource 0x21 1 -> 0106
LoadResource 0x21 1 -> 0106
SizeofResource 0x21 1 -> 00000010
LockResource 0x106 -> 01070000
Read 0x01070000 5 -> bytes 48656c6c6f
Write 0x01070000 00 -> ok
GlobalUnlock 0x106 -> 0000
GlobalCompact 0xffffffff -> 00001000
LockResource 0x106 -> 01070000
Read 0x01070000 5 -> bytes 48656c6c6f
GlobalUnlock 0x106 -> 0000
FreeResource 0x106 -> 0000
FreeResource 0x106 -> 0000
FreeResource 0x106 -> 0001";

/// A resource is fetched by a far read, and goes with its module.
pub const SWEPT: &str = "\
LoadLibrary TRES.DLL -> 0021
LoadResource 0x21 1 -> 0106
GlobalCompact 0xffffffff -> 00001000
Read 0x01070000 5 -> bytes 48656c6c6f
FreeResource 0x99 -> 0001
FreeLibrary 0x21 -> 0000
Read 0x01070000 1 -> fault selector
FreeResource 0x106 -> 0001
LoadResource 0x21 1 -> 0000";
