//! Why a recorder was not installed.

ghost use Rattle.std.specs.Prelude.{◌≡◌};
ghost use Rattle.prom_exporter.specs.declared.errors.BuildError.TheVariants as builds;
ghost use Rattle.prom_recorder.specs.declared.errors.InstallError.TheVariants as installs;

use crate::PrometheusRecorder;
use metrics_core::Memory;
use metrics_facade::SetRecorderError;
use prom_exporter::BuildError;
use thiserror::Error;

/// A recorder was not installed.
#[derive(Debug, Drop, Error)]
pub enum InstallError {
    /// It was not built, for this reason.
    #[error("{0}")]
    Build(BuildError),
    /// A recorder was installed already. The one that was to be is handed back.
    #[error("failed to install exporter as global recorder: {0}")]
    FailedToSetGlobalRecorder(SetRecorderError<Box<PrometheusRecorder>>),
}

impl From<BuildError> for InstallError {
    ghost from_gives = { λ built error. error ≡ installs.Build built };

    fn from(built: BuildError) -> InstallError {
        InstallError::Build(built)
    }
}

impl From<Memory> for InstallError {
    ghost from_gives = { λ _ error. error ≡ installs.Build builds.Memory };

    fn from(_refused: Memory) -> InstallError {
        InstallError::Build(BuildError::Memory)
    }
}

impl From<SetRecorderError<Box<PrometheusRecorder>>> for InstallError {
    ghost from_gives = { λ refused error. error ≡ installs.FailedToSetGlobalRecorder refused };

    fn from(refused: SetRecorderError<Box<PrometheusRecorder>>) -> InstallError {
        InstallError::FailedToSetGlobalRecorder(refused)
    }
}
