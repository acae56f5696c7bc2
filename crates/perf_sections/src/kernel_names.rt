//! The names that perf prints for the kernel's own events.

ghost use Rattle.std.specs.Prelude.{◌≡◌, not, true, codes, option_map};
ghost use Rattle.perf_sections.specs.KernelNames as names;

// What a processor counts.
fn hardware_name(config: u64) -> Option<&'static str>
    ensures { option_map (λ text. text.now) result ≡ names.hardware_name config }
{
    match config {
        0 => Some("cycles"),
        1 => Some("instructions"),
        2 => Some("cache-references"),
        3 => Some("cache-misses"),
        4 => Some("branches"),
        5 => Some("branch-misses"),
        6 => Some("bus-cycles"),
        7 => Some("stalled-cycles-frontend"),
        8 => Some("stalled-cycles-backend"),
        9 => Some("ref-cycles"),
        _ => None,
    }
}

// What the kernel counts.
fn software_name(config: u64) -> Option<&'static str>
    ensures { option_map (λ text. text.now) result ≡ names.software_name config }
{
    match config {
        0 => Some("cpu-clock"),
        1 => Some("task-clock"),
        2 => Some("page-faults"),
        3 => Some("context-switches"),
        4 => Some("cpu-migrations"),
        5 => Some("minor-faults"),
        6 => Some("major-faults"),
        7 => Some("alignment-faults"),
        8 => Some("emulation-faults"),
        9 => Some("dummy"),
        10 => Some("bpf-output"),
        11 => Some("cgroup-switches"),
        _ => None,
    }
}

// Accesses of the cache `L1-dcache`.
fn data_cache_name(access: u64) -> Option<&'static str>
    ensures { option_map (λ text. text.now) result ≡
        names.of_cache (codes "L1-dcache") true access }
{
    match access {
        0 => Some("L1-dcache-loads"),
        256 => Some("L1-dcache-load-misses"),
        1 => Some("L1-dcache-stores"),
        257 => Some("L1-dcache-store-misses"),
        2 => Some("L1-dcache-prefetches"),
        258 => Some("L1-dcache-prefetch-misses"),
        _ => None,
    }
}

// Accesses of the cache `L1-icache`.
fn instruction_cache_name(access: u64) -> Option<&'static str>
    ensures { option_map (λ text. text.now) result ≡
        names.of_cache (codes "L1-icache") (not (names.is_store access)) access }
{
    match access {
        0 => Some("L1-icache-loads"),
        256 => Some("L1-icache-load-misses"),
        2 => Some("L1-icache-prefetches"),
        258 => Some("L1-icache-prefetch-misses"),
        _ => None,
    }
}

// Accesses of the cache `LLC`.
fn last_cache_name(access: u64) -> Option<&'static str>
    ensures { option_map (λ text. text.now) result ≡
        names.of_cache (codes "LLC") true access }
{
    match access {
        0 => Some("LLC-loads"),
        256 => Some("LLC-load-misses"),
        1 => Some("LLC-stores"),
        257 => Some("LLC-store-misses"),
        2 => Some("LLC-prefetches"),
        258 => Some("LLC-prefetch-misses"),
        _ => None,
    }
}

// Accesses of the cache `dTLB`.
fn data_tlb_name(access: u64) -> Option<&'static str>
    ensures { option_map (λ text. text.now) result ≡
        names.of_cache (codes "dTLB") true access }
{
    match access {
        0 => Some("dTLB-loads"),
        256 => Some("dTLB-load-misses"),
        1 => Some("dTLB-stores"),
        257 => Some("dTLB-store-misses"),
        2 => Some("dTLB-prefetches"),
        258 => Some("dTLB-prefetch-misses"),
        _ => None,
    }
}

// Accesses of the cache `iTLB`.
fn instruction_tlb_name(access: u64) -> Option<&'static str>
    ensures { option_map (λ text. text.now) result ≡
        names.of_cache (codes "iTLB") (names.is_load access) access }
{
    match access {
        0 => Some("iTLB-loads"),
        256 => Some("iTLB-load-misses"),
        _ => None,
    }
}

// Accesses of the cache `branch`.
fn branch_name(access: u64) -> Option<&'static str>
    ensures { option_map (λ text. text.now) result ≡
        names.of_cache (codes "branch") (names.is_load access) access }
{
    match access {
        0 => Some("branch-loads"),
        256 => Some("branch-load-misses"),
        _ => None,
    }
}

// Accesses of the cache `node`.
fn node_name(access: u64) -> Option<&'static str>
    ensures { option_map (λ text. text.now) result ≡
        names.of_cache (codes "node") true access }
{
    match access {
        0 => Some("node-loads"),
        256 => Some("node-load-misses"),
        1 => Some("node-stores"),
        257 => Some("node-store-misses"),
        2 => Some("node-prefetches"),
        258 => Some("node-prefetch-misses"),
        _ => None,
    }
}

// Accesses of a cache.
fn cache_name(config: u64) -> Option<&'static str>
    ensures { option_map (λ text. text.now) result ≡ names.cache_name config }
{
    let access = config / 256;
    match config % 256 {
        0 => data_cache_name(access),
        1 => instruction_cache_name(access),
        2 => last_cache_name(access),
        3 => data_tlb_name(access),
        4 => instruction_tlb_name(access),
        5 => branch_name(access),
        6 => node_name(access),
        _ => None,
    }
}

/// The name of an event of a type, if it is one of the kernel's own.
pub fn known_name(ty: u32, config: u64) -> Option<&'static str>
    ensures { option_map (λ text. text.now) result ≡ names.known_name ty config }
{
    match ty {
        0 => hardware_name(config),
        1 => software_name(config),
        3 => cache_name(config),
        _ => None,
    }
}
