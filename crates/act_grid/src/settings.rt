//! The settings of a run.

ghost use Rattle.std.specs.Prelude.{◌≡◌, ◌↔◌, ◌≤◌, IsSome, IfSome};

/// The settings of a run, each within its limits.
#[derive(Clone, Copy, Debug, PartialEq, Eq)]
pub struct Settings {
    /// Decimals of a coordinate, 0 to 9.
    pub digits: u8,
    /// Rows that the index may have, 1 to 262,144, of 2 KiB each.
    pub rows: u32,
    /// Cells that a zone's covering may have, 1 to 1,024.
    pub cells: u32,
    /// Workers that answer batches, 1 to 64.
    pub workers: u32,
    ghost in_limits: { (digits ≤ 9) × (1 ≤ rows) × (rows ≤ 262144) × (1 ≤ cells) × (cells ≤ 1024) × (1 ≤ workers) × (workers ≤ 64) },
}

impl Settings {
    ghost use Rattle.act_grid.specs.Limits.{InLimits};

    /// The settings with these values. None comes exactly where one is outside its limits.
    pub fn new(digits: u8, rows: u32, cells: u32, workers: u32) -> Option<Settings>
        ensures limits { IsSome result ↔ InLimits digits rows cells workers }
        ensures digits { IfSome result (λ settings. settings.digits ≡ digits) }
        ensures rows { IfSome result (λ settings. settings.rows ≡ rows) }
        ensures cells { IfSome result (λ settings. settings.cells ≡ cells) }
        ensures workers { IfSome result (λ settings. settings.workers ≡ workers) }
    {
        if digits > 9 || rows < 1 || rows > 262_144 {
            return None;
        }
        if cells < 1 || cells > 1024 || workers < 1 || workers > 64 {
            return None;
        }
        Some(Settings {
            digits,
            rows,
            cells,
            workers,
        })
    }
}

#[cfg(test)]
mod tests {
    use super::*;

    #[test]
    fn limits(rt: HostRuntime) {
        let cases = [
            (0, 1, 1, 1, true),
            (9, 262_144, 1024, 64, true),
            (7, 16_384, 64, 4, true),
            (10, 16_384, 64, 4, false),
            (7, 0, 64, 4, false),
            (7, 262_145, 64, 4, false),
            (7, 16_384, 0, 4, false),
            (7, 16_384, 1025, 4, false),
            (7, 16_384, 64, 0, false),
            (7, 16_384, 64, 65, false),
        ];
        for (digits, rows, cells, workers, fits) in cases {
            let made = Settings::new(digits, rows, cells, workers);
            assert_eq!(rt;
                made.is_some(),
                fits,
                "at {digits} {rows} {cells} {workers}"
            );
        }
    }
}
