//! The names of types of records.

ghost use Rattle.std.specs.Prelude.{◌≡◌};
ghost use Rattle.perf_summary.specs.TypeNames as names;

/// The name that `perf report --stats` prints for a type, `-` if it has none.
pub fn type_name(ty: usize) -> &'static str
    ensures { result.now ≡ names.type_name ty }
{
    if ty < 64 {
        kernel_type_name(ty)
    } else {
        own_type_name(ty)
    }
}

// Those of the kernel's types, `PERF_RECORD_*`.
fn kernel_type_name(ty: usize) -> &'static str
    ensures { result.now ≡ names.kernel_type_name ty }
{
    match ty {
        1 => "MMAP",
        2 => "LOST",
        3 => "COMM",
        4 => "EXIT",
        5 => "THROTTLE",
        6 => "UNTHROTTLE",
        7 => "FORK",
        8 => "READ",
        9 => "SAMPLE",
        10 => "MMAP2",
        11 => "AUX",
        12 => "ITRACE_START",
        13 => "LOST_SAMPLES",
        14 => "SWITCH",
        15 => "SWITCH_CPU_WIDE",
        16 => "NAMESPACES",
        17 => "KSYMBOL",
        18 => "BPF_EVENT",
        19 => "CGROUP",
        20 => "TEXT_POKE",
        21 => "AUX_OUTPUT_HW_ID",
        _ => "-",
    }
}

// Those of the types of perf's own frames.
fn own_type_name(ty: usize) -> &'static str
    ensures { result.now ≡ names.own_type_name ty }
{
    match ty {
        64 => "ATTR",
        65 => "EVENT_TYPE",
        66 => "TRACING_DATA",
        67 => "BUILD_ID",
        68 => "FINISHED_ROUND",
        69 => "ID_INDEX",
        70 => "AUXTRACE_INFO",
        71 => "AUXTRACE",
        72 => "AUXTRACE_ERROR",
        73 => "THREAD_MAP",
        74 => "CPU_MAP",
        75 => "STAT_CONFIG",
        76 => "STAT",
        77 => "STAT_ROUND",
        78 => "EVENT_UPDATE",
        79 => "TIME_CONV",
        80 => "FEATURE",
        81 => "COMPRESSED",
        82 => "FINISHED_INIT",
        83 => "COMPRESSED2",
        _ => "-",
    }
}
