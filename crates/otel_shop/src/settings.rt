//! What the program asks the system for before it serves.

use crate::PROGRAM;
use crate::shop_error::ShopError;
use crate::tracing::Settings;
use opentelemetry::Key;
use opentelemetry_sdk::resource::{EnvResourceDetector, ResourceDetector, ResourceStrings};
use opentelemetry_sdk::trace::ConfigStrings;
use otel_host::{config_strings, random_seed};
use std::alloc::{AllocError, Global};

const SERVICE_NAME: &str = "service.name";

/// What the environment says and the system draws.
pub fn settings_of(rt: &HostRuntime) -> Result<Settings, ShopError> {
    let mut strings = config_strings(rt, PROGRAM)?;
    name_service(rt.alloc(), &mut strings.resource)?;
    let is_disabled = strings.is_sdk_disabled();
    Ok(Settings {
        strings,
        shop_seed: random_seed(rt)?,
        backend_seed: random_seed(rt)?,
        is_disabled,
    })
}

/// What nothing is traced by.
pub fn untraced() -> Settings {
    Settings {
        strings: ConfigStrings::default(),
        shop_seed: 0,
        backend_seed: 0,
        is_disabled: true,
    }
}

/// Names the service after the program where the environment does not name it.
fn name_service(alloc: Global, strings: &mut ResourceStrings) -> Result<(), AllocError> {
    if !is_service_named(strings)? {
        strings.service_name = Some(String::from_str(alloc, PROGRAM)?);
    }
    Ok(())
}

fn is_service_named(strings: &ResourceStrings) -> Result<bool, AllocError> {
    if let Some(name) = &strings.service_name
        && !name.is_empty()
    {
        return Ok(true);
    }
    let seen = EnvResourceDetector::new(strings)?.detect()?;
    Ok(seen.get_ref(&Key::from_static_str(SERVICE_NAME)).is_some())
}
