/// The maximum number of bytes of a configuration.
pub const MAX_CONFIGURATION_BYTES: u64 = 4194304;

/// The maximum number of bytes of a run text, which `replay` reads.
pub const MAX_RUN_TEXT_BYTES: u64 = 1048576;

/// The maximum number of bytes of a certificate that `audit` checks.
pub const MAX_CERTIFICATE_BYTES: u64 = 1073741824;

/// The maximum number of bytes of another solver's refutation, which `rup` checks.
pub const MAX_REFUTATION_BYTES: u64 = 67108864;

/// The maximum number of bytes of a scenario, which `drive` reads.
pub const MAX_SCENARIO_BYTES: u64 = 8192;
