//! How the body of a SAMPLE changes with the sample type of its configuration: the bytes of one
//! field are inserted or cut out, and everything else stays the same. A law of the layout, stated
//! as the contract of a function that does nothing.

ghost use Rattle.std.specs.Prelude.{◌<◌};
ghost use Rattle.perf_base.specs.Configured.{configuration_of};
ghost use Rattle.perf_sample_types.specs.SampleLaws.{SpliceLaw, CutLaw};

use perf_base::ParseConfig;

/// The bytes of an absent field can be inserted. Take a `body` that is a sample under `config`, a
/// field `f` that is absent from it, and bytes `w` that encode this field and nothing more, all in
/// one byte order, whichever it is. Insert `w` at the place where the field would be, and set one
/// of the field's flags in the sample type: the new body is a sample, in which the field has the
/// value that `w` encodes and each other field has the value it had before. If ID is present, the
/// sample's id is still that of ID, even if the inserted field is IDENTIFIER.
///
/// `f` is the index of one of the 24 fields of a sample in their order, from 0: IDENTIFIER, IP,
/// TID, TIME, ADDR, ID, STREAM_ID, CPU, PERIOD, READ, CALLCHAIN, RAW, BRANCH_STACK, REGS_USER,
/// STACK_USER, WEIGHT or WEIGHT_STRUCT, DATA_SRC, TRANSACTION, REGS_INTR, PHYS_ADDR, CGROUP,
/// DATA_PAGE_SIZE, CODE_PAGE_SIZE, AUX.
///
/// Code that adds a flag to a configuration can rely on it: a sample grows by that field alone. The
/// law is the contract of this call; at run time the call does nothing.
pub fn splice_law<E>(config: &ParseConfig<E>, body: &[u8], f: usize, w: &[u8])
    requires { f < 24 }
    ensures { SpliceLaw (configuration_of config.now) body.now f w.now }
{}

/// The bytes of a field that is present can be cut out. Take a `body` that is a sample under
/// `config`, and a field `f` that is present in it, in either byte order. Cut the field's bytes
/// out, and clear all of its flags in the sample type: the new body is a sample, in which the field
/// is absent and each other field has the value it had before. If ID is present and another field
/// is cut out, the sample's id is still that of ID; if ID itself is cut out, the id is that of
/// IDENTIFIER, if present.
///
/// `f` is an index as for [`splice_law`].
///
/// Code that removes a field's flags from a configuration can rely on it: a sample shrinks by that
/// field alone. The law is the contract of this call; at run time the call does nothing.
pub fn cut_law<E>(config: &ParseConfig<E>, body: &[u8], f: usize)
    requires { f < 24 }
    ensures { CutLaw (configuration_of config.now) body.now f }
{}
